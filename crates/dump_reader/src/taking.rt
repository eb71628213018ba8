// Whether a line may follow what was read, and what is left once it is taken.
ghost use Rattle.std.specs.Prelude.{◌≡◌, ◌≤◌};
ghost use Rattle.dump_reader.specs.Taking.{starts_with, Inside, time_follows, value_follows, takes_line, values_with, shown_with, past_line, time_with, next_with};

use dump::DumpLine;

// The latest time.
const LAST: u64 = 1_000_000_000_000_000_000;

// At time 0 the value of the next variable follows.
pub(crate) fn starts(next: u8, line: DumpLine) -> bool
    ensures { result ≡ starts_with next line }
{
    match line {
        DumpLine::Value { variable, .. } => variable == next,
        DumpLine::Time { .. } | DumpLine::Malformed => false,
    }
}

// A time may follow: after the values of another, above it, and not too late.
fn takes_time(now: u64, next: u8, time: u64) -> bool
    ensures { result ≡ time_follows now next time }
{
    next != 0 && now < time && time <= LAST
}

// A value may follow: in variable order, once within a time, and another than the variable has.
fn takes_value(count: u8, next: u8, values: &[u32; 64], variable: u8, value: u32) -> bool
    requires { count ≤ 64 }
    ensures { result ≡ value_follows count next values.now variable value }
{
    next <= variable && variable < count && value != values[variable as usize]
}

pub(crate) fn takes(count: u8, time: u64, next: u8, values: &[u32; 64], line: DumpLine) -> bool
    requires { count ≤ 64 }
    ensures { result ≡ takes_line count time next values.now line }
{
    match line {
        DumpLine::Time { time: k, .. } => takes_time(time, next, k),
        DumpLine::Value {
            variable,
            value,
            ..
        } => takes_value(count, next, values, variable, value),
        DumpLine::Malformed => false,
    }
}

// A value becomes that of its variable.
pub(crate) fn put_value(values: &mut [u32; 64], line: DumpLine)
    requires { Inside line }
    ensures { values.new ≡ values_with values.old line }
{
    if let DumpLine::Value {
        variable,
        value,
        ..
    } = line
    {
        values[variable as usize] = value;
    }
}

// It is shown if its time is not above the step that was asked for.
pub(crate) fn show_value(shown: &mut [u32; 64], time: u64, step: u64, line: DumpLine)
    requires { Inside line }
    ensures { shown.new ≡ shown_with step time shown.old line }
{
    if time <= step {
        put_value(shown, line);
    }
}

// The place past a line.
pub(crate) fn past(line: DumpLine) -> usize
    ensures { result ≡ past_line line }
{
    match line {
        DumpLine::Time { next, .. } | DumpLine::Value { next, .. } => next,
        DumpLine::Malformed => 0,
    }
}

// The time after a line.
pub(crate) fn time_after(time: u64, line: DumpLine) -> u64
    ensures { result ≡ time_with time line }
{
    match line {
        DumpLine::Time { time: k, .. } => k,
        DumpLine::Value { .. } | DumpLine::Malformed => time,
    }
}

// The variable from which on values may follow a line.
pub(crate) fn next_after(line: DumpLine) -> u8
    ensures { result ≡ next_with line }
{
    match line {
        DumpLine::Value { variable, .. } => variable.saturating_add(1),
        DumpLine::Time { .. } | DumpLine::Malformed => 0,
    }
}
