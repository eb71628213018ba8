// The number of a process, a program or a variable as a byte: no card has as many as 255, so those past that are 255.
ghost use Rattle.std.specs.Prelude.{◌≡◌, min};

// 255 in place of a None: what may not change (the definitions of a step in specs of lent_card and lent_steps say `min process 255`).
pub fn narrow(number: u32) -> u8
    ensures { result ≡ min number 255 }
{
    if number < 255 { number as u8 } else { 255 }
}
