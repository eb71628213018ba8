// The numbers of a dictionary, in arrays of their own, so that a program runs on its keys and values and copies no dictionary.
ghost use Rattle.std.specs.Prelude.{◌≡◌, ◌<◌, ◌≤◌, min, take, MatchResult};
ghost use Rattle.helping.specs.Numbers.{keys, values, place_of, no_numbers, lacking};

use crate::simulation::Paused;
use construction::simulations::{Dictionary, Pause, Simulation};

// The variables and the values of the first items, and how many these are; past 32 there are none.
#[derive(Clone, Copy)]
pub struct Numbers {
    pub keys: [u8; 32],
    pub values: [u32; 32],
    pub end: u8,
}

impl Numbers {
    // Of a dictionary in which nothing is noted.
    pub fn none() -> Numbers
        ensures { result ≡ no_numbers }
    {
        Numbers {
            keys: [0; 32],
            values: [0; 32],
            end: 0,
        }
    }

    // The variables and values of the first items of a dictionary.
    pub(crate) fn of(dictionary: &Dictionary, end: u8) -> Numbers
        requires { end ≤ 32 }
        ensures counted { result.end ≡ end }
        ensures keyed { take end result.keys ≡ take end (keys dictionary.now) }
        ensures valued { take end result.values ≡ take end (values dictionary.now) }
    {
        let mut numbers = Numbers::none();
        numbers.end = end;
        for k in 0..end as usize {
            numbers.keys[k] = dictionary.items[k].variable;
            numbers.values[k] = dictionary.items[k].value;
        }
        numbers
    }

    // Lines H20 and H26: the place of a variable among the first keys, if it stands there.
    fn find(&self, variable: u8) -> Option<usize>
        ensures { result ≡ place_of (take (min self.now.end 32) self.now.keys) variable }
    {
        let end = dictionary::noted(self.end) as usize;
        self.keys[..end].iter().position(|key| *key == variable)
    }

    // Its place for a program in this state, which stands still where the variable is not there.
    pub(crate) fn place(&self, variable: u8, simulation: Simulation) -> Result<usize, Paused>
        ensures { MatchResult result (λ k. (place_of (take (min self.now.end 32) self.now.keys) variable ≡ Some k) × (k < 32)) (λ e. (place_of (take (min self.now.end 32) self.now.keys) variable ≡ None) × (e ≡ lacking variable simulation)) }
    {
        match self.find(variable) {
            Some(place) => Ok(place),
            None => Err(Paused {
                pause: Pause::Lacks(variable),
                simulation,
            }),
        }
    }
}
