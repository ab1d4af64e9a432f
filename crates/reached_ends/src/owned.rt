//! Whether variables are of frames that stores have.

ghost use Rattle.std.specs.Prelude.{◌≡◌, true};
ghost use Rattle.reached_ends.specs.Reached.{IsOwned, AreOwned};

use akl_terms::{Name, Var};
use local_store::{Shared, Store};

// Whether each of these variables is of a frame that one of the stores has.
pub(crate) fn are_owned(stores: &[Shared<Store>], variables: &[Var]) -> bool
    ensures { result ≡ true → AreOwned stores.now variables.now }
{
    for variable in variables {
        if !is_owned(stores, variable.frame) {
            return false;
        }
    }
    true
}

// Whether one of the stores has the frame.
fn is_owned(stores: &[Shared<Store>], frame: Name) -> bool
    ensures { result ≡ true → IsOwned stores.now frame }
{
    for store in stores {
        if store.get().has_frame(frame) {
            return true;
        }
    }
    false
}
