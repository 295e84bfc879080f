// The Load key.
ghost use Rattle.std.specs.Prelude.{◌≡◌, ◌<◌, ◌+◌, length};
ghost use Rattle.digit_core.specs.Size.{size};

use crate::machine::{Machine, Mode, Turned};
use card_unit::{CardIo, read_num};
use outside_io::Host;

impl<const M: u32> Machine<M> {
    ghost use Rattle.addr_indirect.specs.declared.Stop.{Stop};
    ghost use Rattle.card_unit.specs.declared.reader.CardIo.TheVariants as io;
    ghost use Rattle.cpu_step.specs.Machine.{LoadsKey, ReadsCard};
    ghost use Rattle.card_unit.specs.Hopper.{own_cards, GoesOnReadingCards};

    /// The Load key: turns indicators off, sets IR to 00000, reads a card numerically into 00000 to 00079 and lets the machine run.
    ///
    /// It turns off 06, 07, 09, 11, 12, 14, 16, 17, 36, 37 and 38. IR-2 and the switches stay. `On`: the card is taken. `Empty`, `Jam`:
    /// there was no card, or a line of over 80 bytes; core is as before. `Failed` only if the host's count of faults rose; core
    /// is as before. There is no other answer.
    /// Source: CPU manual, Load key; what it turns off is this project's own.
    pub fn load_key<H: Host>(&mut self, host: &mut H) -> Turned
        ensures { LoadsKey M self.old self.new (H.seen host.old) (H.seen host.new) result }
    {
        self.core.size_law();
        self.panel.clear_for_load();
        self.regs.ir = 0;
        match self.read_card(0, host) {
            CardIo::Done => {
                self.mode = Mode::Running;
                Turned::On
            }
            // A card's 80 columns lie within each core.
            CardIo::Stop(_) => unreachable!(),
            CardIo::Empty => {
                self.mode = Mode::Empty;
                Turned::Empty
            }
            CardIo::Jam { unit, line } => {
                self.mode = Mode::Jam { unit, line };
                Turned::Jam { unit, line }
            }
            CardIo::Failed => {
                self.mode = Mode::Faulted;
                Turned::Failed
            }
        }
    }

    // Reads a card into core from `p` upwards.
    fn read_card<H: Host>(&mut self, p: u32, host: &mut H) -> CardIo
        requires { p < size M }
        ensures length { length self.old.core ≡ size M }
        ensures regs { self.new.regs ≡ self.old.regs }
        ensures mode { self.new.mode ≡ self.old.mode }
        ensures arms { self.new.arms ≡ self.old.arms }
        ensures keys { self.new.keys ≡ self.old.keys }
        ensures room { (why : Stop) → result ≡ io.Stop why → size M < p + 80 }
        ensures own { own_cards self.new.hopper ≡ own_cards self.old.hopper }
        ensures reads_on { GoesOnReadingCards self.old.hopper self.new.hopper (H.seen host.old) (H.seen host.new) }
        ensures reads { ReadsCard M p self.old self.new (H.seen host.old) (H.seen host.new) result }
    {
        self.core.size_law();
        read_num(&mut self.core, p, &mut self.panel, &mut self.hopper, host)
    }
}
