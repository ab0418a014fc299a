// The work of a boot that is ready: no store of it is made, and it has no answer.
ghost use Rattle.std.specs.Prelude.{◌≡◌, []};
ghost use Rattle.making.specs.Made.{work_with};

use making::{Values, new_work, no_answer};
use table::Kind;
use work::Work;

pub(crate) fn ready_with(kind: Kind, values: Values) -> Work
    ensures { result ≡ work_with kind values [] }
{
    new_work(kind, values, no_answer())
}
