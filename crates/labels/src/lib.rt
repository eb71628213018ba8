// The table of labels (specs/Labels of the crate construction): name, word and what is told of each. Printing, words in a block and tests of a place are
// read off it. It rests on the crate construction (types and definitions).
#![tactic(auto)]

ghost use Rattle.std.specs.Prelude.{◌≡◌};
ghost use Rattle.construction.specs.Labels.{row, label_row};

use construction::accesses::{Label, LabelRow};

fn row(letter: u8, number: u8, noting: bool, word: u64) -> LabelRow
    ensures { result ≡ row letter number noting word }
{
    LabelRow {
        letter,
        number,
        noting,
        word,
    }
}

// The row of a label.
pub fn label_row(label: Label) -> LabelRow
    ensures { result ≡ label_row label }
{
    match label {
        Label::Idle => row(0, 0, false, 0),
        Label::P1 => row(b'P', 1, false, 1),
        Label::P3 => row(b'P', 3, false, 2),
        Label::P5 => row(b'P', 5, false, 3),
        Label::P7 => row(b'P', 7, false, 4),
        Label::P10 => row(b'P', 10, false, 5),
        Label::C2 => row(b'C', 2, false, 6),
        Label::C4 => row(b'C', 4, false, 7),
        Label::P13 => row(b'P', 13, false, 8),
        Label::P14 => row(b'P', 14, false, 9),
        Label::P16 => row(b'P', 16, false, 10),
        Label::H21 => row(b'H', 21, true, 11),
        Label::H36 => row(b'H', 36, true, 12),
        Label::P19 => row(b'P', 19, true, 13),
        Label::P20 => row(b'P', 20, true, 14),
        Label::P21 => row(b'P', 21, false, 15),
        Label::P22 => row(b'P', 22, false, 16),
        Label::F1 => row(b'F', 1, false, 17),
        Label::F3 => row(b'F', 3, false, 18),
        Label::P6 => row(b'P', 6, false, 19),
    }
}
