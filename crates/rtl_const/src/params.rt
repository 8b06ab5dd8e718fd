// The numbers that names stand for.

ghost use Rattle.std.specs.Prelude.{◌≡◌, IsSome, IsOk, OnOk, OnErr};
ghost use Rattle.rtl_const.specs.Numbers.{no_numbers, numbers_of, with_number};

use name_map::NameMap;
use std::alloc::Global;
use text_ground::memory::Memory;
use text_ground::text::Text;

/// What gives names their numbers.
pub trait Lookup {
    ghost use Rattle.rtl_const.specs.Numbers.{Numbers};

    /// The numbers that the names have.
    ghost numbers: { Self → Numbers };

    /// The number of the name.
    fn get(&self, name: &Text) -> Option<i64>
        ensures { result ≡ numbers self.now name.now };
}

/// A map from names to numbers.
#[derive(Drop)]
pub struct Params {
    numbers: NameMap<i64>,
}

impl Params {
    /// No name has a number yet.
    pub fn new(alloc: Global) -> Params
        ensures { numbers_of result ≡ no_numbers }
    {
        Params {
            numbers: NameMap::new(alloc),
        }
    }

    /// Gives the name this number, in place of the one that it may have; only a new name takes memory.
    pub fn set(&mut self, name: &Text, n: i64) -> Result<(), Memory>
        ensures ok { OnOk result (numbers_of self.new
            ≡ with_number (numbers_of self.old) name.now n) }
        ensures replaced { IsSome (numbers_of self.old name.now) → IsOk result }
        ensures err { OnErr result (numbers_of self.new ≡ numbers_of self.old) }
    {
        if self.numbers.find(name).is_some() {
            self.numbers.replace(name, n);
            return Ok(());
        }
        self.numbers.put(name, n)
    }
}

impl Lookup for Params {
    ghost numbers = { numbers_of };

    fn get(&self, name: &Text) -> Option<i64> {
        self.numbers.find(name)
    }
}
