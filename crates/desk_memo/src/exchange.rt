// What is kept changes places with what was made beside it.
ghost use Rattle.std.specs.Prelude.{◌≡◌, option_map};
ghost use Rattle.desk_memo.specs.Exchanges.{or_old, put_in};

use std::mem;

fn exchange_one<T>(kept: &mut T, aside: &mut Option<T>)
    ensures kept { kept.new ≡ or_old aside.old kept.old }
    ensures aside { aside.new ≡ option_map (λ _. kept.old) aside.old }
{
    if let Some(new) = aside {
        mem::swap(kept, new);
    }
}

// Doing it again undoes it.
pub(crate) fn exchange<T>(kept: &mut [T], aside: &mut [Option<T>])
    ensures done { kept.new ≡ put_in aside.old kept.old }
    ensures undone { put_in aside.new kept.new ≡ kept.old }
{
    for place in 0..kept.len().min(aside.len()) {
        exchange_one(&mut kept[place], &mut aside[place]);
    }
}
