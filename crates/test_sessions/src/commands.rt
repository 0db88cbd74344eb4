// The lines that are printed of commands.
use line_proto::{print_command, read_command};
use std::alloc::Global;
use std::test::Fail;

// What is printed of the command that a line asks for, behind what stood there.
fn printed_again(alloc: Global, text: &[u8]) -> Result<Vec<u8>, Fail> {
    let mut out = b"before ".to_vec(alloc)?;
    let Some(command) = read_command(alloc, text)? else {
        return Ok(out);
    };
    print_command(alloc, &command, &mut out)?;
    Ok(out)
}

/// Lines, and what is printed of their commands.
const AGAIN: [(&[u8], &[u8]); 6] = [
    (
        b"get 000102030405060708090A0B0c0d0e0f10111213",
        b"before get 000102030405060708090a0b0c0d0e0f10111213\n",
    ),
    (
        b"put 0000000000000000000000000000000000000000 0 * 68656C6C6f",
        b"before put 0000000000000000000000000000000000000000 0 * 68656c6c6f\n",
    ),
    (
        b"put 0000000000000000000000000000000000000001 0 0 -",
        b"before put 0000000000000000000000000000000000000001 0 0 -\n",
    ),
    (
        b"put 00000000000000000000000000000000000000AA 315360000 65535 00",
        b"before put 00000000000000000000000000000000000000aa 315360000 65535 00\n",
    ),
    (b"raid", b"before raid\n"),
    (b"frob", b"before "),
];

#[test]
fn commands_are_printed_as_they_are_read(rt: HostRuntime) -> Result<(), Fail> {
    for (text, want) in AGAIN {
        assert_eq!(rt; printed_again(rt.alloc(), text)?.as_slice(), want);
    }
    Ok(())
}
