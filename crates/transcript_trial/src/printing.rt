// What a record prints. What standard output doesn't take is let go (`let _`): nothing is said of it, and the script goes on.
use crate::carrying::Left;

fn print_list(rt: &impl Print, list: [u32; 6]) {
    for n in list {
        let _ = rt.write_all(&n.to_le_bytes());
    }
}

pub(crate) fn print_record(rt: &impl Print, left: Left, string: &[u8]) {
    let o = left.answer;
    let _ = print!(rt; "{:02x}{:04x}{:04x}", o.number, o.count, o.place);
    print_list(rt, left.kinds);
    print_list(rt, left.registers);
    print_list(rt, left.lanes);
    print_list(rt, left.words);
    let _ = rt.write_all(string);
}
