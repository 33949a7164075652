//! What is done to all desks before and after their queries are answered.
ghost use Rattle.std.specs.List.{AllZip, AllByRecursion};
ghost use Rattle.std.specs.Prelude.{◌≡◌, ◌<◌, OnOk, IfErr, IfNone, IfSome, None, Some};
ghost use Rattle.live_versions.specs.Batches.{version_of};
ghost use Rattle.desks.specs.declared.desk.ServeFault.TheVariants.{Ahead};
ghost use Rattle.desks.specs.Desks.{AtSome, KeepsDesk};
ghost use Rattle.desks.specs.Working.{HasLearnt, Settled, OfWork};

use crate::desk::{Desk, ServeFault};
use live_versions::Notice;

/// Lets every reader learn a notice.
pub fn learn_all(desks: &mut [Desk], opening: &Notice)
    requires { AllByRecursion (λ d. d.reader.book ≡ opening.now.book) desks.old }
    ensures { AllZip (HasLearnt opening.now) desks.old desks.new }
{
    let Some((desk, rest)) = desks.split_first_mut() else {
        return;
    };
    desk.reader.learn(opening);
    learn_all(rest, opening);
}

#[tactic(auto, using(crate::proofs::Desks::at_first, crate::proofs::Desks::at_later))]
/// The fault of the first desk that has one.
pub fn first_fault(desks: &[Desk]) -> Option<ServeFault>
    requires { AllByRecursion (λ d. IfSome d.fault OfWork) desks.now }
    ensures none { IfNone result (AllByRecursion (λ d. d.fault ≡ None) desks.now) }
    ensures fault { IfSome result OfWork }
    ensures of_desk { IfSome result (λ fault. AtSome (λ d. d.fault ≡ Some fault) desks.now) }
{
    let (desk, rest) = desks.split_first()?;
    match desk.fault {
        Some(fault) => Some(fault),
        None => first_fault(rest),
    }
}

#[tactic(auto, using(crate::proofs::Desks::kept_all))]
/// Lets every reader settle with a notice. Returns `Ahead` only if a reader has seen more than the notice says.
pub fn settle_all(desks: &mut [Desk], closing: &Notice) -> Result<(), ServeFault>
    requires { AllByRecursion (λ d. d.reader.book ≡ closing.now.book) desks.old }
    ensures settled { OnOk result (AllZip (Settled closing.now) desks.old desks.new) }
    ensures kept { AllZip KeepsDesk desks.old desks.new }
    ensures fault { IfErr result (λ fault. fault ≡ Ahead) }
    ensures ahead { IfErr result (λ _.
        AtSome (λ d. version_of closing.now.batches < version_of d.reader.batches) desks.new) }
{
    let Some((desk, rest)) = desks.split_first_mut() else {
        return Ok(());
    };
    if desk.reader.settle(closing).is_err() {
        return Err(ServeFault::Ahead);
    }
    settle_all(rest, closing)
}
