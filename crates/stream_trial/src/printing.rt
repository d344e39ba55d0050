// What a record prints.
use crate::carrying::Left;
use std::fmt;

impl fmt::Display for Left {
    fn fmt<W: fmt::Write>(&self, f: &mut fmt::Formatter<W>) -> fmt::Result {
        let o = self.answer;
        let st = o.stream;
        write!(f, "{:02x}{:04x}{:08x}", o.number, o.count, o.place)?;
        write!(f, "{:x}{:08x}{:08x}", u8::from(st.ended), st.from, st.taken)?;
        for list in [self.kinds, self.registers, self.lanes, self.words] {
            let [a, b, c, d, e, g] = list;
            write!(f, "{a:08x}{b:08x}{c:08x}{d:08x}{e:08x}{g:08x}")?;
        }
        Ok(())
    }
}
