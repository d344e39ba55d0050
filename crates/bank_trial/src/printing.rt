// What a record prints.
use crate::carrying::Left;
use std::fmt;

impl fmt::Display for Left {
    fn fmt<W: fmt::Write>(&self, f: &mut fmt::Formatter<W>) -> fmt::Result {
        let banks = self.port.banks;
        write!(f, "{:02x}{:04x}{:x}", self.number, self.word, self.selected)?;
        write!(f, "{:08x}", self.port.index)?;
        for bank in [banks.bank0, banks.bank1, banks.bank2, banks.bank3] {
            write!(f, "{:08x}{:08x}", bank.compare, bank.mask)?;
        }
        Ok(())
    }
}
