// What test programs share: the shared cells written to standard output, and the comparison of cards. It rests on the crates construction, cells,
// codes and host. What is computed equals its definition in specs/; no contract can say what is written, so whatever writes gives nothing back.
#![tactic(auto)]

pub mod same; // same.rt: whether two cards are the same in every part

use construction::card::Card;
use construction::cells::{Announcement, Flag, Gate, Record, Words};
use host::{show, show_decimal};

// A number after a comma.
fn write_number(rt: &impl Print, value: u64) {
    show(rt, b",");
    show_decimal(rt, value);
}

fn write_words(rt: &impl Print, words: Words) {
    write_number(rt, words.w0 as u64);
    write_number(rt, words.w1 as u64);
    write_number(rt, words.w2 as u64);
    write_number(rt, words.w3 as u64);
}

fn write_holder(rt: &impl Print, holder: Option<u8>) {
    match holder {
        None => show(rt, b",none"),
        Some(process) => write_number(rt, process as u64),
    }
}

fn write_flag(rt: &impl Print, flag: Flag) {
    match flag {
        Flag::Done => show(rt, b",done"),
        Flag::Active => show(rt, b",active"),
        Flag::Exit => show(rt, b",exit"),
    }
}

pub fn show_gate(rt: &impl Print, gate: Gate) {
    let holder = gate.holder;
    show(rt, b"gate");
    write_holder(rt, holder);
    write_number(rt, gate.seq);
    show(rt, b"\n");
}

pub fn show_announcement(rt: &impl Print, process: u64, announcement: Announcement) {
    let flag = announcement.flag;
    let words = announcement.words;
    show(rt, b"announcement");
    write_number(rt, process);
    write_number(rt, announcement.program as u64);
    write_number(rt, announcement.seq);
    write_flag(rt, flag);
    write_number(rt, announcement.number);
    write_words(rt, words);
    write_number(rt, announcement.fault as u64);
    show(rt, b"\n");
}

pub fn show_record(rt: &impl Print, variable: u64, record: Record) {
    show(rt, b"record");
    write_number(rt, variable);
    write_number(rt, record.val0 as u64);
    write_number(rt, record.val1 as u64);
    write_number(rt, record.toggle as u64);
    write_number(rt, record.seq);
    show(rt, b"\n");
}

fn show_announcements(rt: &impl Print, announcements: [Announcement; 8], count: u8) {
    for i in 0..8 {
        let announcement = announcements[i];
        if i < count as usize {
            show_announcement(rt, i as u64, announcement);
        }
    }
}

// The gate, the announcements of all processes and the record of a variable.
pub fn show_cells(rt: &impl Print, card: Card, variable: u32) {
    let gate = card.gate;
    show_gate(rt, gate);
    let announcements = card.announcements;
    show_announcements(rt, announcements, card.process_count);
    let at = variable as usize;
    if at < 64 {
        let record = card.records[at];
        show_record(rt, at as u64, record);
    }
}
