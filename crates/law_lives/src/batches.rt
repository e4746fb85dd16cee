//! That what is right at the end of a turn is right at the end of each settling in it, and which messages of tables
//! are said: the functions are proofs alone, and their contracts are the laws.

ghost use Rattle.std.specs.Prelude.{List, []};
ghost use Rattle.std.specs.List.{AllByRecursion};
ghost use Rattle.fg_outside.specs.declared.hub.Happening.{Happening};
ghost use Rattle.conf_types.specs.Configuration.{Configuration};
ghost use Rattle.conf_types.specs.Valid.{IsValid};
ghost use Rattle.ctl_world.specs.World.{first};
ghost use Rattle.law_stories.specs.Settlings.{said_in, settlings};
ghost use Rattle.law_lives.specs.Batches.{OnlyWipesBetween, SaysExactly};
ghost use Rattle.law_lives.specs.Behind.{IsRightBehind};

use law_stories::laws::what_the_laws_rest_on;
use plan_difference::laws::equal_plans_have_no_difference;

/// Whatever happens to a controller that begins with a valid configuration: at the end of each settling, and so
/// behind each frame of a piece, all is right that is right behind a turn.
pub fn each_settling_leaves_it_right()
    ensures { (conf : Configuration) (story : List Happening) → IsValid conf → AllByRecursion IsRightBehind (settlings (first conf) story) }
{
    what_the_laws_rest_on();
}

/// Whatever happens, in each settling exactly the batches are said that are due: to a datapath that runs, where no
/// barrier is outstanding and the difference isn't empty. Outside of settlings nothing is said of tables but the wipe
/// with its barrier, on a connection on which nothing was said of them.
pub fn batches_are_said_exactly_where_they_are_due()
    ensures settlings { (conf : Configuration) (story : List Happening) → IsValid conf → AllByRecursion SaysExactly (settlings (first conf) story) }
    ensures outside { (conf : Configuration) (story : List Happening) → IsValid conf
        → OnlyWipesBetween [] (settlings (first conf) story) (said_in (first conf) story) }
{
    what_the_laws_rest_on();
    equal_plans_have_no_difference();
}
