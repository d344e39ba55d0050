// The two calls of the C door under their C names: each is the call of crate `door`, with its contract.
// `rt lib` makes the archive of it; its header is c/host_port.h.
// Its numbers, its lent bytes and its two names are those of the C header.
#![tactic(auto)]

ghost use Rattle.port_spec.specs.declared.Access.TheVariants.{Read, Write};
ghost use Rattle.door_spec.specs.Door.{Called};

// A read of a register, for a C program. The memory after it is the memory before it.
#[unsafe(no_mangle)]
pub extern "C" fn host_port_read(image: &mut [u8], memory: &[u8], register: u32, lanes: u32) -> u64
    ensures { Called image.old memory.now (Read register lanes) result image.new memory.now }
{
    door::host_port_read(image, memory, register, lanes)
}

// A write of a word to a register, for a C program.
#[unsafe(no_mangle)]
pub extern "C" fn host_port_write(
    image: &mut [u8],
    memory: &mut [u8],
    register: u32,
    lanes: u32,
    word: u16,
) -> u64
    ensures { Called image.old memory.old (Write register lanes word) result image.new
        memory.new }
{
    door::host_port_write(image, memory, register, lanes, word)
}
