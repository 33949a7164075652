//! The end of a run: each reader enters what is published.
ghost use Rattle.std.specs.List.{AllZip, AllByRecursion};
ghost use Rattle.std.specs.Prelude.{◌≡◌, ◌<◌, length, OnOk};
ghost use Rattle.life.specs.Clients.{HasSettled};

use crate::snapshots::client::Client;
use desks::ServeFault;
use snapshot_store::{Notice, Publisher};

/// A reader enters what is published, of which it is given a notice.
fn settle(publisher: &Publisher, closing: &Notice, client: &mut Client) -> Result<(), ServeFault>
    requires closing { closing.now ≡ publisher.now.seen }
    requires book { client.old.reader.book ≡ publisher.now.seen.book }
    ensures { OnOk result (HasSettled publisher.now.seen client.old client.new) }
{
    if client.reader.enter_after(closing) && publisher.is_entered_by(&client.reader) {
        Ok(())
    } else {
        Err(ServeFault::Ahead)
    }
}

/// The only reader, if there is one, enters what is published.
#[tactic(auto, using(crate::proofs::Clients::settled_alone))]
fn settle_last(
    publisher: &Publisher,
    closing: &Notice,
    clients: &mut [Client],
) -> Result<(), ServeFault>
    requires count { length clients.old < 2 }
    requires closing { closing.now ≡ publisher.now.seen }
    requires book { AllByRecursion (λ c. c.reader.book ≡ publisher.now.seen.book) clients.old }
    ensures { OnOk result (AllZip (HasSettled publisher.now.seen) clients.old clients.new) }
{
    if let Some((client, _rest)) = clients.split_first_mut() {
        settle(publisher, closing, client)?;
    }
    Ok(())
}

/// Each reader enters what is published. `Ahead` if one of them isn't there afterwards, which only a publish in the
/// meantime could cause. The clients are halved at each step, so the stack grows as the logarithm of their number.
#[tactic(auto, using(crate::proofs::Clients::settled_halves))]
pub(crate) fn settle_all(
    publisher: &Publisher,
    closing: &Notice,
    clients: &mut [Client],
) -> Result<(), ServeFault>
    requires closing { closing.now ≡ publisher.now.seen }
    requires book { AllByRecursion (λ c. c.reader.book ≡ publisher.now.seen.book) clients.old }
    ensures { OnOk result (AllZip (HasSettled publisher.now.seen) clients.old clients.new) }
{
    if clients.len() < 2 {
        return settle_last(publisher, closing, clients);
    }
    let (front, back) = clients.split_at_mut(clients.len() / 2);
    settle_all(publisher, closing, front)?;
    settle_all(publisher, closing, back)?;
    Ok(())
}
