// Helping (lines P16 to P18 and H1 to H36 of the paper): what a process goes on with that helps the operation whose turn it is. A program is
// simulated on the numbers of a dictionary, and only `note` takes a dictionary, updates it and gives it back.
// It rests on the crates construction (types and definitions), cells, dictionary, opening and programs.
#![tactic(auto)]

pub mod numbers; // numbers.rt: the keys and values of a dictionary
pub mod simulation; // simulation.rt: a program that runs on them

ghost use Rattle.std.specs.Prelude.{◌≡◌};
ghost use Rattle.std.specs.Option.{ok_or};
ghost use Rattle.construction.specs.declared.accesses.Label.TheVariants.{P21};
ghost use Rattle.construction.specs.Machine.{write_control, pause_control, go_to, helps, begin_help, note, writing};

use crate::numbers::Numbers;
use crate::simulation::simulate;
use construction::accesses::{Begun, Control, Helped, Label, Writing};
use construction::cells::{Announcement, Record, Words};
use construction::programs::Program;
use construction::simulations::{Dictionary, Pause, Simulation};
use dictionary::{insert, item_of, next_write, noted, with_bit};

// Line P17.
pub fn helps(announcement: Announcement, number: u64) -> bool
    ensures { result ≡ helps announcement number }
{
    !cells::is_done(announcement.flag) && announcement.seq <= number
}

// Lines H31 and H32: the write of the next item of so many, or P19 past the last.
pub fn write_from(next: u8, end: u8) -> Control
    ensures { result ≡ write_control next end }
{
    if next < end {
        return Control {
            place: Label::H36,
            target: next,
        };
    }
    Control {
        place: Label::P19,
        target: 0,
    }
}

// Where a simulation goes on that stands still: it reads a record, or writes what it altered, or nothing after a fault.
pub fn after_pause(pause: Pause, next: u8, end: u8) -> Control
    ensures { result ≡ pause_control pause next end }
{
    match pause {
        Pause::Ended => write_from(next, end),
        Pause::Faulted => Control {
            place: Label::P19,
            target: 0,
        },
        Pause::Lacks(variable) => Control {
            place: Label::H21,
            target: variable,
        },
    }
}

// Lines P16 to P18, H1: the program of an announcement starts, if it is to be helped; else its helper goes on at P21. It runs up to its first
// touch of a variable, so that there is nothing of a dictionary yet: no keys and no values.
pub fn begin_help(
    n: u8,
    program: Program,
    cell: Announcement,
    number: u64,
    control: Control,
) -> Result<Begun, Control>
    ensures { result ≡ ok_or (begin_help n program cell number) (go_to control P21) }
{
    if !helps(cell, number) {
        return Err(Control {
            place: Label::P21,
            ..control
        });
    }
    let mut numbers = Numbers::none();
    let paused = simulate(n, &program, cell.words, opening::started(), &mut numbers);
    Ok(Begun {
        control: after_pause(paused.pause, 0, 0),
        simulation: paused.simulation,
    })
}

// Lines H21 to H25: a record that was read is noted in the dictionary and in the set of the variables noted, and the program goes on. Its values
// are taken out of the dictionary and put back.
// Its parts are arguments of their own: what may not change (`note` of construction/specs/Machine, of which the theorems speak, takes them one by one).
pub fn note(
    n: u8,
    program: Program,
    inputs: Words,
    cell: Record,
    number: u64,
    control: Control,
    simulation: Simulation,
    dictionary: Dictionary,
    mask: u64,
) -> Helped
    ensures { result ≡ note n program inputs cell number control simulation dictionary mask }
{
    if number < cell.seq {
        return Helped {
            control: Control {
                place: Label::P19,
                target: control.target,
            },
            simulation,
            dictionary,
            mask,
        };
    }
    let mask = with_bit(mask, control.target);
    let mut d = insert(dictionary, item_of(number, control.target, cell));
    let end = noted(d.length);
    let mut numbers = Numbers::of(&d, end);
    let paused = simulate(n, &program, inputs, simulation, &mut numbers);
    for k in 0..end as usize {
        d.items[k].value = numbers.values[k];
    }
    let next = next_write(number, d, 0);
    Helped {
        control: after_pause(paused.pause, next, end),
        simulation: paused.simulation,
        dictionary: d,
        mask,
    }
}

// Line H36: the item that is written, and where its helper goes on.
pub fn writing(number: u64, control: Control, dictionary: Dictionary) -> Writing
    ensures { result ≡ writing number control dictionary }
{
    let target = control.target;
    if target < 32 {
        let item = dictionary.items[target as usize];
        let next = next_write(number, dictionary, target + 1);
        return Writing {
            item,
            control: write_from(next, noted(dictionary.length)),
        };
    }
    Writing {
        item: opening::no_item(),
        control: Control {
            place: Label::P19,
            target: 0,
        },
    }
}
