// What stands behind the fields of a card's bytes: its services, and the flag behind them.
ghost use Rattle.std.specs.Prelude.{◌≡◌, length};
ghost use Rattle.sheet_records.specs.Cards.{services_at, extension_at};
ghost use Rattle.std.proofs.Math.Nat.{le_refl};

use crate::cards::{COUNT, CardBytes, SERVICE, SERVICES};
use card::extension::Extended;
use card::services::Service;

impl<'a> Extended for CardBytes<'a> {
    ghost extension = { λ card. extension_at card.version card.bytes.now };

    ghost room = { λ card. length (services_at card.version card.bytes.now) };

    #[tactic(auto, using(crate::proofs::CardLaws::services_count, crate::proofs::CardLaws::services_none))]
    fn count(&self) -> usize {
        if card::version::lists_services(self.version) {
            return codec::byte_or_zero(self.bytes, COUNT) as usize;
        }
        0
    }

    #[tactic(auto, unfolding(crate::specs::Cards::service_at), using(crate::proofs::CardLaws::service_there, crate::proofs::CardLaws::services_entry))]
    fn service(&self, k: usize) -> Service {
        let at = SERVICES + SERVICE * k;
        Service {
            number: codec::read_u16(self.bytes, at),
            class: self.bytes[at + 2],
        }
    }

    #[tactic(auto, unfolding(crate::specs::Cards::floor_at))]
    fn floor(&self) -> u8 {
        if card::version::sets_floor(self.version) {
            return codec::byte_or_zero(self.bytes, crate::cards::flag_place(self.bytes));
        }
        card::extension::NO_FLOOR
    }

    ghost few_fit = { λ card few. le_refl (length (services_at card.version card.bytes.now)) };
}
