//! The panel of the console: switches and indicators, each with its code in branch instructions.
#![tactic(auto)]

ghost use Rattle.std.specs.Prelude.{◌≡◌, IsTrue};
ghost use Rattle.indicators.specs.Codes.{code_constants, indicator_codes};

mod codes;

pub use codes::{
    ANY_CHECK, ANY_DISK_CHECK, CYLINDER_OVERFLOW, DISK_ADDRESS, DISK_LENGTH, EQUAL, EVEN_PARITY,
    HIGH, HIGH_OR_EQUAL, LAST_CARD, ODD_PARITY, OVERFLOW, READ_CHECK, SWITCH_1, SWITCH_2, SWITCH_3,
    SWITCH_4, WRITE_CHECK,
};

/// The switches and indicators of the console. A program switch or an indicator that is true is on, a check switch that is true
/// is at STOP.
///
/// Source: CPU manual, console switches and indicators; which of them this panel has is this project's own.
#[derive(Clone, Copy, Debug, PartialEq, Eq)]
pub struct Panel {
    /// 01: program switch 1.
    pub switch_1: bool,
    /// 02: program switch 2.
    pub switch_2: bool,
    /// 03: program switch 3.
    pub switch_3: bool,
    /// 04: program switch 4.
    pub switch_4: bool,
    /// 06: read check, a character that was read is invalid.
    pub read_check: bool,
    /// 07: write check, a character that was to be written is invalid.
    pub write_check: bool,
    /// 09: last card, no byte was left after the card that was read.
    pub last_card: bool,
    /// 11: high or positive, the last result was over zero, or the field at P was greater.
    pub high: bool,
    /// 12: equal or zero, the last result was zero, or the two fields were equal.
    pub equal: bool,
    /// 14: overflow, a sum had a carry past its field, or the field at Q was longer.
    pub overflow: bool,
    /// 16: a cell of even parity at an even address (MBR-even check).
    pub even_parity: bool,
    /// 17: a cell of even parity at an odd address (MBR-odd check).
    pub odd_parity: bool,
    /// 36: disk address check.
    pub disk_address: bool,
    /// 37: disk wrong length record or read back check.
    pub disk_length: bool,
    /// 38: cylinder overflow.
    pub cylinder_overflow: bool,
    /// The overflow check switch: true is STOP.
    pub overflow_stops: bool,
    /// The I/O check switch: true is STOP.
    pub in_out_stops: bool,
}

impl Panel {
    ghost use Rattle.indicators.specs.Panel.{on, set, is_settable, with_checks, dark};
    ghost use Rattle.indicators.specs.Lamps.{panel_after_test, with_result, panel_for_load};

    /// The panel after power on: all switches and indicators are off, the check switches are at PROGRAM.
    ///
    /// Source: this project's own.
    pub fn new() -> Panel
        ensures { result ≡ dark }
    {
        Panel {
            switch_1: false,
            switch_2: false,
            switch_3: false,
            switch_4: false,
            read_check: false,
            write_check: false,
            last_card: false,
            high: false,
            equal: false,
            overflow: false,
            even_parity: false,
            odd_parity: false,
            disk_address: false,
            disk_length: false,
            cylinder_overflow: false,
            overflow_stops: false,
            in_out_stops: false,
        }
    }

    /// Whether the switch or indicator of a code is on.
    ///
    /// 13 is on if 11 or 12 is, 19 if any of 06, 07, 16 and 17 is, and 39 if any of 36, 37 and 38 is. A code without a switch or
    /// an indicator reads as off.
    /// Source: CPU manual, branch indicator; which indicators 19 and 39 join, and that other codes read as off, is this project's own.
    #[tactic(auto, unfolding(crate::specs::Panel::on))]
    pub fn on(&self, code: u8) -> bool
        ensures { result ≡ on code self.now }
    {
        match code {
            SWITCH_1 => self.switch_1,
            SWITCH_2 => self.switch_2,
            SWITCH_3 => self.switch_3,
            SWITCH_4 => self.switch_4,
            READ_CHECK => self.read_check,
            WRITE_CHECK => self.write_check,
            LAST_CARD => self.last_card,
            HIGH => self.high,
            EQUAL => self.equal,
            HIGH_OR_EQUAL => self.high || self.equal,
            OVERFLOW => self.overflow,
            EVEN_PARITY => self.even_parity,
            ODD_PARITY => self.odd_parity,
            ANY_CHECK => self.read_check || self.write_check || self.even_parity || self.odd_parity,
            DISK_ADDRESS => self.disk_address,
            DISK_LENGTH => self.disk_length,
            CYLINDER_OVERFLOW => self.cylinder_overflow,
            ANY_DISK_CHECK => self.disk_address || self.disk_length || self.cylinder_overflow,
            _ => false,
        }
    }

    /// Whether the switch or indicator of a code is on, by the test of a branch instruction.
    ///
    /// A test of 06, 07, 09, 14, 36, 37 or 38 turns this indicator off. All others stay; 13, 19 and 39 turn nothing off.
    /// Source: CPU manual, branch indicator; when indicators go off is this project's own.
    #[tactic(auto, unfolding(crate::specs::Panel::goes_off))]
    pub fn test(&mut self, code: u8) -> bool
        ensures answer { result ≡ on code self.old }
        ensures panel { self.new ≡ panel_after_test code self.old }
    {
        let answer = self.on(code);
        if matches!(
            code,
            READ_CHECK
                | WRITE_CHECK
                | LAST_CARD
                | OVERFLOW
                | DISK_ADDRESS
                | DISK_LENGTH
                | CYLINDER_OVERFLOW
        ) {
            self.set(code, false);
        }
        answer
    }

    /// Turns one switch or indicator on or off. All others stay.
    ///
    /// `code` is 01 to 04 for the program switches, or 06, 07, 09, 11, 12, 14, 16, 17, 36, 37 or 38.
    /// Source: CPU manual, console switches and indicators.
    #[tactic(auto, unfolding(crate::specs::Panel::set))]
    pub fn set(&mut self, code: u8, to: bool)
        requires { IsTrue (is_settable code) }
        ensures { self.new ≡ set code to self.old }
    {
        match code {
            SWITCH_1 => self.switch_1 = to,
            SWITCH_2 => self.switch_2 = to,
            SWITCH_3 => self.switch_3 = to,
            SWITCH_4 => self.switch_4 = to,
            READ_CHECK => self.read_check = to,
            WRITE_CHECK => self.write_check = to,
            LAST_CARD => self.last_card = to,
            HIGH => self.high = to,
            EQUAL => self.equal = to,
            OVERFLOW => self.overflow = to,
            EVEN_PARITY => self.even_parity = to,
            ODD_PARITY => self.odd_parity = to,
            DISK_ADDRESS => self.disk_address = to,
            DISK_LENGTH => self.disk_length = to,
            CYLINDER_OVERFLOW => self.cylinder_overflow = to,
            _ => {}
        }
    }

    /// Turns the overflow and the I/O check switch: true is STOP, false is PROGRAM. All else stays.
    ///
    /// Source: CPU manual, console switches; what a check switch at STOP does is this project's own.
    pub fn set_checks(&mut self, overflow: bool, io: bool)
        ensures { self.new ≡ with_checks overflow io self.old }
    {
        self.overflow_stops = overflow;
        self.in_out_stops = io;
    }

    /// The overflow and the I/O check switch, in this order: true is STOP.
    ///
    /// Source: CPU manual, console switches.
    pub fn checks(&self) -> (bool, bool)
        ensures overflow { result.0 ≡ self.now.overflow_stops }
        ensures io { result.1 ≡ self.now.in_out_stops }
    {
        (self.overflow_stops, self.in_out_stops)
    }

    /// Shows the result of a sum or a comparison: 12 is on if it is zero, 11 if it is neither zero nor negative. All else stays.
    ///
    /// Source: CPU manual, arithmetic indicators; when they are set is this project's own.
    pub fn set_result(&mut self, zero: bool, negative: bool)
        ensures { self.new ≡ with_result zero negative self.old }
    {
        self.set(EQUAL, zero);
        self.set(HIGH, !zero && !negative);
    }

    /// Turns off the indicators that the Load key turns off: 06, 07, 09, 11, 12, 14, 16, 17, 36, 37 and 38. All switches stay.
    ///
    /// Source: this project's own.
    #[tactic(auto, unfolding(crate::specs::Panel::set))]
    pub fn clear_for_load(&mut self)
        ensures { self.new ≡ panel_for_load self.old }
    {
        *self = Panel {
            switch_1: self.switch_1,
            switch_2: self.switch_2,
            switch_3: self.switch_3,
            switch_4: self.switch_4,
            overflow_stops: self.overflow_stops,
            in_out_stops: self.in_out_stops,
            ..Panel::new()
        };
    }
}

/// The law of the codes: the constants are the codes of the definition.
///
/// Source: CPU manual, branch indicator.
pub fn indicator_law()
    ensures { code_constants ≡ indicator_codes }
{}

impl Default for Panel {
    ghost use Rattle.indicators.specs.Panel.{dark};

    /// The panel after power on, as `new` gives it.
    fn default() -> Panel
        ensures { result ≡ dark }
    {
        Panel::new()
    }
}
