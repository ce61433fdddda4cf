//! Brings a round of a script to the front.
ghost use Rattle.std.specs.Prelude.{◌≡◌, ◌≤◌, length};
ghost use Rattle.solv_rounds.specs.Inner.Fronts.{in_front};

use solv_script::Script;

/// Exchanges the first round of a script with the one at this place, where 0 is the first round's own. Called once more, it leaves the script as
/// it was. It takes no memory.
pub fn to_front(script: &mut Script, place: usize)
    requires { place ≤ length script.old.later }
    ensures { script.new ≡ in_front place script.old }
{
    if place == 0 {
        return;
    }
    script.turn(place - 1);
}
