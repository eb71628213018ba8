// Plays schedules through the session of the bench program, one command at a time. For each command it prints `same,` or `changed,` (whether the whole card
// is as it was before), and the bench program's line; after a `look` also the shared cells with the record of that variable.
// Standard input holds texts below headings of one line: `#` and a title begin a card text, `##` and a title a schedule, the commands that are played on the
// card text above from its opening. The byte `#` stands nowhere else. A refused card text is told, and its schedules are played on the card that it opens to.
// The expected output is worked out by the simulator (tests/replay). It rests on the crates commands and session, and on report for the comparison of cards.
// What is searched for, played and compared equals its definition in specs/; what only prints gives nothing back.
#![tactic(auto)]

ghost use Rattle.std.specs.Prelude.{◌≤◌, length};
ghost use Rattle.replay.specs.Playing.{Finds, Plays};

use commands::Command;
use commands::reading::command_at;
use construction::card::Card;
use grammar::reading::has_byte;
use host::{read_input, show};
use report::same::same_card;
use report::show_cells;
use session::running::{put_lines, start};
use session::{Printed, State};

// What was printed of a session, and whether the card is the same after it.
#[derive(Clone, Copy)]
struct Played {
    printed: Printed,
    same: bool,
}

// The place of the next such byte, or the end of the text.
// The end in place of a None: its callers go on from there either way, so an Option is no plainer.
fn find(text: &[u8], byte: u8, start: usize) -> usize
    requires { start ≤ length text.now }
    ensures { Finds text.now byte start result }
{
    for i in start..text.len() {
        if text[i] == byte {
            return i;
        }
    }
    text.len()
}

// Prints the lines of a session from a state on, and compares the cards before and after them.
fn play(state: State, calls: &[u8], buffer: &mut [u8]) -> Played
    ensures { Plays calls.now state buffer.old result buffer.new }
{
    let printed = put_lines(state, calls, buffer);
    let same = same_card(state.card, printed.state.card);
    Played { printed, same }
}

fn show_line(rt: &impl Print, same: bool, line: &[u8]) {
    if same {
        show(rt, b"same,");
    } else {
        show(rt, b"changed,");
    }
    show(rt, line);
}

fn show_looked(rt: &impl Print, command: Command, card: Card) {
    if let Command::Read { variable } = command {
        show_cells(rt, card, variable);
    }
}

// Each command is played as the last one of its text, so that the session stops after it.
fn play_commands(rt: &impl Print, first: Card, calls: &[u8]) {
    let mut state = State {
        card: first,
        at: 0,
        line: 1,
    };
    let mut at: usize = 0;
    // The next place is known when a command is read, so no range gives it.
    while at < calls.len() {
        let parsed = command_at(calls, at);
        if calls.len() < parsed.next {
            return;
        }
        let mut buffer = host::buffer();
        let played = play(state, &calls[..parsed.next], &mut buffer);
        let length = played.printed.length;
        show_line(rt, played.same, &buffer[..length]);
        state = played.printed.state;
        show_looked(rt, parsed.command, state.card);
        at = parsed.next;
    }
}

fn play_schedule(rt: &impl Print, title: &[u8], card: &[u8], calls: &[u8]) {
    show(rt, title);
    let mut buffer = host::buffer();
    let started = start(card, calls, &mut buffer);
    show(rt, &buffer[..started.length]);
    play_commands(rt, started.state.card, calls);
}

fn play_all(rt: &impl Print, input: &[u8]) {
    let mut card_start: usize = 0;
    let mut card_end: usize = 0;
    let mut at: usize = 0;
    // The next place is known when a heading is found, so no range gives it.
    while at < input.len() {
        let title_end = find(input, b'\n', at);
        if input.len() <= title_end {
            return;
        }
        let start = title_end + 1;
        let end = find(input, b'#', start);
        if has_byte(input, at + 1, b'#') {
            play_schedule(
                rt,
                &input[at..start],
                &input[card_start..card_end],
                &input[start..end],
            );
        } else {
            card_start = start;
            card_end = end;
        }
        at = end;
    }
}

fn main(rt: HostRuntime) {
    let mut input = [0u8; 32768];
    let length = read_input(&rt, &mut input);
    play_all(&rt, &input[..length]);
}
