// A card's bytes.
ghost use Rattle.std.specs.Prelude.{◌≡◌, ◌≤◌, ◌<◌, length};
ghost use Rattle.refusals.specs.Number.{refused_number};
ghost use Rattle.sheet_records.specs.Cards.{flag_place, flag_length, card_length, card_at, refusal_at};

use card::Card;
use card::extension::Extended;
use refusals::Refusal;

// Place of the first of the card's f64.
const NUMBERS: usize = 6;

// Bytes of the card's fields.
const FIELDS: usize = 158;

// The places of the count of services and of the first service, and the bytes of each.
pub const COUNT: usize = 158;

pub const SERVICES: usize = 159;

pub const SERVICE: usize = 3;

// The place behind the services, where the flag stands.
pub fn flag_place(bytes: &[u8]) -> usize
    ensures { (result ≡ flag_place bytes.now) × (result ≤ 924) }
{
    SERVICES + SERVICE * (codec::byte_or_zero(bytes, COUNT) as usize)
}

// Bytes of the flag.
#[tactic(auto, unfolding(crate::specs::Cards::flag_length))]
fn flag_length(version: u8) -> usize
    ensures { result ≡ flag_length version }
{
    if card::version::sets_floor(version) {
        return 1;
    }
    0
}

// The length of the card at the front of the bytes: it fits in two bytes.
#[tactic(auto, unfolding(crate::specs::Cards::card_length), using(crate::proofs::CardLaws::flag_short))]
pub fn card_length(version: u8, bytes: &[u8]) -> usize
    ensures { (result ≡ card_length version bytes.now) × (result < 65536) }
{
    if card::version::lists_services(version) {
        return flag_place(bytes) + flag_length(version);
    }
    FIELDS
}

// A card at the front of bytes in which all of it lies.
#[derive(Clone, Copy)]
pub struct CardBytes<'a> {
    pub version: u8,
    pub bytes: &'a [u8],
    pub ghost fits: { card_length version bytes.now ≤ length bytes.now },
}

impl<'a> CardBytes<'a> {
    #[tactic(auto, using(crate::proofs::CardLaws::card_fits))]
    pub fn read_card(self) -> Card
        ensures { result ≡ card_at self.entry.version self.entry.bytes.now }
    {
        let bytes = self.bytes;
        Card {
            layers: bytes[0],
            units: codec::read_u16(bytes, 1),
            simultaneous: bytes[3],
            budget: codec::read_u16(bytes, 4),
            substep: codec::nth_f64(bytes, NUMBERS, 0),
            timestep: codec::nth_f64(bytes, NUMBERS, 1),
            inlet: codec::nth_f64(bytes, NUMBERS, 2),
            outlet: codec::nth_f64(bytes, NUMBERS, 3),
            max: codec::nth_f64(bytes, NUMBERS, 4),
            reference: codec::nth_f64(bytes, NUMBERS, 5),
            lower: codec::nth_f64(bytes, NUMBERS, 6),
            upper: codec::nth_f64(bytes, NUMBERS, 7),
            below: codec::nth_f64(bytes, NUMBERS, 8),
            during: codec::nth_f64(bytes, NUMBERS, 9),
            above: codec::nth_f64(bytes, NUMBERS, 10),
            velocity: codec::nth_f64(bytes, NUMBERS, 11),
            diameter: codec::nth_f64(bytes, NUMBERS, 12),
            a: codec::nth_f64(bytes, NUMBERS, 13),
            b: codec::nth_f64(bytes, NUMBERS, 14),
            flow: codec::nth_f64(bytes, NUMBERS, 15),
            losses: codec::nth_f64(bytes, NUMBERS, 16),
            start: codec::nth_f64(bytes, NUMBERS, 17),
            power: codec::nth_f64(bytes, NUMBERS, 18),
        }
    }

    // Whether the card, read already, is accepted: 1 to 4, the flag among the fields that 1 tests, then 61.
    #[tactic(auto, unfolding(crate::specs::Cards::refusal_at, card::specs::Extension::full_refusal, card::specs::Services::list_refusal, card::specs::Card::card_refusal, card::specs::Card::verdict_number), using(refusals::proofs::Numbers::number_not_0))]
    pub fn check(self, card: Card) -> Result<(), Refusal>
        requires { card ≡ card_at self.version self.bytes.now }
        ensures { refused_number result ≡ refusal_at self.entry.version self.entry.bytes.now }
    {
        if !card::extension::flag_ok(self.floor()) {
            return Err(Refusal::CardOutOfRange);
        }
        card::verdict::check(self.version, card)?;
        if !card::services::services_ok(&self) {
            return Err(Refusal::BadServices);
        }
        Ok(())
    }
}
