//! What is done to all clients before and after their requests are answered.
ghost use Rattle.std.specs.List.{AllZip, AllByRecursion};
ghost use Rattle.std.specs.Prelude.{◌≡◌, OnOk};
ghost use Rattle.life.specs.Clients.{KeepsClient, HasLearnt, HasSettled};

use crate::client::Client;
use desks::ServeFault;
use live_versions::Notice;

/// Each reader learns a notice.
pub(crate) fn learn_all(clients: &mut [Client], opening: &Notice)
    requires { AllByRecursion (λ c. c.reader.book ≡ opening.now.book) clients.old }
    ensures { AllZip (HasLearnt opening.now) clients.old clients.new }
{
    let Some((client, rest)) = clients.split_first_mut() else {
        return;
    };
    client.reader.learn(opening);
    learn_all(rest, opening);
}

#[tactic(auto, using(crate::proofs::Clients::kept_all))]
/// Each reader settles with a notice. `Ahead` only if one has seen more than the notice says.
pub(crate) fn settle_all(clients: &mut [Client], closing: &Notice) -> Result<(), ServeFault>
    requires { AllByRecursion (λ c. c.reader.book ≡ closing.now.book) clients.old }
    ensures settled { OnOk result (AllZip (HasSettled closing.now) clients.old clients.new) }
    ensures kept { AllZip KeepsClient clients.old clients.new }
{
    let Some((client, rest)) = clients.split_first_mut() else {
        return Ok(());
    };
    if client.reader.settle(closing).is_err() {
        return Err(ServeFault::Ahead);
    }
    settle_all(rest, closing)
}
