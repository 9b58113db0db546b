// A call on the caller's own battery: the first of its zones stored where they lie, and what is shown.
#![tactic(auto)]

ghost use Rattle.std.specs.Prelude.{◌≡◌, ◌+◌, ◌≤◌, true, length};
ghost use Rattle.refusals.specs.Number.{number};
ghost use Rattle.battery.specs.Answer.{settled};
ghost use Rattle.battery.specs.Ledger.{whole};
ghost use Rattle.own_record.specs.Record.{reply_shown, refused_shown, answered_with, renewed_zones, lent_extension, advance_extended, answer_own, advanced_of};

use battery::lent::Lent;
use battery::{Battery, Ledger, Reply};
use card::extension::Extended;
use card::services::Service;
use refusals::Refusal;

// The caller's own record: a battery, the services that its card lists, which are read from version 3 on, and its flag, which is read from version 4 on.
// Neither is ever written.
#[repr(C)]
#[derive(Clone, Copy)]
pub struct OwnRecord {
    pub battery: Battery,
    // how many there are, in two arrays: C's layout
    pub services: u8,
    pub numbers: [u16; 32],
    pub classes: [u8; 32],
    // 1 sets a floor for standing losses
    pub floor: u8,
}

// The services of such a record where they lie, and its flag, in a version.
#[derive(Clone, Copy)]
pub struct OwnExtension<'a> {
    pub version: u8,
    pub count: u8,
    pub numbers: &'a [u16; 32],
    pub classes: &'a [u8; 32],
    pub floor: u8,
}

impl<'a> Extended for OwnExtension<'a> {
    ghost extension = { lent_extension };

    ghost room = { λ own. 32 };

    #[tactic(auto, using(crate::proofs::Extensions::own_count, crate::proofs::Extensions::own_none))]
    fn count(&self) -> usize {
        if card::version::lists_services(self.version) {
            return self.count as usize;
        }
        0
    }

    #[tactic(auto, unfolding(crate::specs::Record::own_service), using(crate::proofs::Extensions::own_entry))]
    fn service(&self, k: usize) -> Service {
        Service {
            number: self.numbers[k],
            class: self.classes[k],
        }
    }

    #[tactic(auto, unfolding(crate::specs::Record::own_floor))]
    fn floor(&self) -> u8 {
        if card::version::sets_floor(self.version) {
            return self.floor;
        }
        card::extension::NO_FLOOR
    }

    ghost few_fit = { λ own few. few };
}

// What a call answers, without the battery.
#[repr(C)]
#[derive(Clone, Copy)]
pub struct Shown {
    // 0 for none; a number, since C reads it
    pub refusal: u8,
    // 1 where there is an outlet temperature; a number, since C reads it
    pub mark: u8,
    pub substeps: u32,
    // kWh, or the state of charge
    pub energy: f64,
    pub outlet: f64,
    // seconds
    pub time: f64,
}

// What an answer shows.
impl From<Reply> for Shown {
    ghost from_gives = { λ reply shown. shown ≡ reply_shown reply };

    fn from(reply: Reply) -> Shown {
        Shown {
            refusal: 0,
            mark: battery::answers::outlet_mark(reply.outlet),
            substeps: reply.substeps,
            energy: reply.energy,
            outlet: battery::answers::outlet_value(reply.outlet),
            time: reply.time,
        }
    }
}

// What a refusal shows.
impl From<Refusal> for Shown {
    ghost from_gives = { λ refusal shown. shown ≡ refused_shown (number refusal) };

    fn from(refusal: Refusal) -> Shown {
        Shown {
            refusal: refusal.number(),
            mark: 0,
            substeps: 0,
            energy: 0.0,
            outlet: 0.0,
            time: 0.0,
        }
    }
}

// Stores the first n zones of another list; the places above are not written. A function for its contract, which `advance_apart` is proved by; with two
// slices it would be `copy_from_slice` itself.
#[tactic(auto, using(crate::proofs::Zones::renewed_front))]
fn renew_zones(zones: &mut [f64; 64], own: &[f64; 64], n: usize)
    requires { n ≤ 64 }
    ensures { zones.new ≡ renewed_zones zones.old own.now n }
{
    zones[..n].copy_from_slice(&own[..n]);
}

// A call's bytes on any battery and extension whatsoever, its zones apart: 10 where one of them is refused. They are judged before the call is read,
// so that the call goes to the step from where it was read, without a copy. Ledger, extension, call and zones go side by side: C's record has the zones
// inside its battery, and here they are lent apart.
#[tactic(auto, unfolding(crate::specs::Record::advance_read), using(card::proofs::FullRefusal::extension_few, engine::proofs::Accepted::accepted_few, engine_replies::proofs::Settled::settled_refusal, sheet_calls::proofs::ByKind::kind_fits, sheet_calls::proofs::ByKind::read_by_kind, sheet_calls::proofs::ByKind::none_by_kind, crate::proofs::Answered::not_accepted_extended, crate::proofs::Answered::accepted_extended))]
fn advance_read(
    version: u8,
    ledger: Ledger,
    extension: OwnExtension<'_>,
    call: &[u8],
    zones: &mut [f64; 64],
) -> Result<Reply, Refusal>
    ensures { settled ledger zones.old result zones.new ≡ advance_extended version (lent_extension extension.entry) (whole ledger zones.old) call.now }
{
    if !(battery::is_accepted(version, ledger, zones) & card::extension::extension_ok(&extension)) {
        return Err(Refusal::BadCall);
    }
    let Some(kind) = sheet_calls::kind_of(version, call) else {
        return Err(Refusal::BadCall);
    };
    let kind = u8::from(kind);
    let class = sheet_calls::demand_class(version, &extension, kind, call);
    let floor = card::extension::has_floor(&extension);
    let Some(read) = sheet_calls::call_by(version, kind, class, floor, call) else {
        return Err(Refusal::BadCall);
    };
    let figures = card::pcm::figures_of(ledger.card);
    let salts = card::pcm::lent(ledger.card, &figures);
    let lent = Lent { ledger, salts };
    engine::steps::advance_accepted(version, lent, read, zones)
}

// The same in any version: 40 where it isn't known.
#[tactic(auto, unfolding(crate::specs::Record::answer_own), using(engine_replies::proofs::Settled::settled_refusal))]
fn advance_version(
    version: u8,
    ledger: Ledger,
    extension: OwnExtension<'_>,
    call: &[u8],
    zones: &mut [f64; 64],
) -> Result<Reply, Refusal>
    ensures { settled ledger zones.old result zones.new ≡ answer_own version (lent_extension extension.entry) (whole ledger zones.old) call.now }
{
    if card::version::known_version(version) {
        return advance_read(version, ledger, extension, call, zones);
    }
    Err(Refusal::NoVersion)
}

// A call's bytes on a battery whose zones lie apart. It runs on a copy of them: answered, the first `count` are stored, and refused, none. The totals
// are the caller's to store.
#[tactic(auto, unfolding(battery::specs::Answer::refused_with, crate::specs::Record::shown_of, crate::specs::Record::advanced_by, crate::specs::Record::advanced_of), using(engine_replies::proofs::Settled::settled_refusal, crate::proofs::Answered::answer_is, crate::proofs::Answered::answered_few, crate::proofs::Answered::answered_zones))]
pub fn advance_apart(
    ledger: Ledger,
    extension: OwnExtension<'_>,
    call: &[u8],
    zones: &mut [f64; 64],
) -> Result<Reply, Refusal>
    ensures { answered_with ledger result zones.new ≡ advanced_of extension.entry.version (lent_extension extension.entry) (whole ledger zones.old) call.now }
{
    let mut own = *zones;
    let reply = advance_version(extension.version, ledger, extension, call, &mut own)?;
    renew_zones(zones, &own, ledger.count as usize);
    Ok(reply)
}
