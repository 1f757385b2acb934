// Whole scripts, with the text that they print.
use crate::page::Page;
use book_script::interpreter::interpret;
use book_script::run::Run;
use std::alloc::Global;
use std::test::Fail;

// What a script prints where few places are lent. Not that of `checks`: what is tried is the call on a book.
fn printed(heap: Global, bytes: &[u8]) -> Result<String, Fail> {
    printed_with(heap, bytes, &mut [0; 3], &mut [0; 5])
}

fn printed_with(
    heap: Global,
    bytes: &[u8],
    sets: &mut [u16],
    numbers: &mut [u64],
) -> Result<String, Fail> {
    let mut page = Page {
        text: String::new(heap),
    };
    let mut run = Run::new();
    interpret(&mut run, bytes, sets, numbers, &mut page)?;
    let Page { text } = page;
    Ok(text)
}

#[test]
fn nothing_prints_nothing(rt: HostRuntime) -> Result<(), Fail> {
    let text = printed(rt.alloc(), b"")?;
    assert_eq!(rt; text.as_str(), "");
    Ok(())
}

#[test]
fn a_cut_command_ends_the_run(rt: HostRuntime) -> Result<(), Fail> {
    let text = printed(rt.alloc(), b"N\x02OMP\x01")?;
    assert_eq!(rt; text.as_str(), "M 0\n! 4 21\n");
    Ok(())
}

#[test]
fn a_long_script_is_not_begun(rt: HostRuntime) -> Result<(), Fail> {
    let text = printed(rt.alloc(), &[b'M'; 4097])?;
    assert_eq!(rt; text.as_str(), "! 4096 23\n");
    Ok(())
}

#[test]
fn too_few_places(rt: HostRuntime) -> Result<(), Fail> {
    let text = printed(rt.alloc(), b"N\x04P\x00\x0fOMSTM")?;
    assert_eq!(rt; text.as_str(), "! 6 16\n! 7 16\nT 0 0 0 0 1\n! 9 16\n");
    Ok(())
}

#[test]
fn the_bridge_and_what_is_refused(rt: HostRuntime) -> Result<(), Fail> {
    let script =
        b"MN\x00N\x11P\x00\x01N\x05N\x05P\x00\x00P\x00\x20P\x00\x09P\x00\x12P\x00\x15P\x00\x0eTOOTSMxM";
    let text = printed_with(rt.alloc(), script, &mut [0; 4], &mut [0; 7])?;
    assert_eq!(rt;
        text.as_str(),
        "! 0 22\n! 1 1\n! 3 1\n! 5 22\n! 10 22\n! 12 3\n! 15 4\n! 30 22\n! 32 22\nT 0 0 2 8 5 1\nS 0 0 24 72 24 0 0\nM 3 14 21 24\n! 36 20\n"
    );
    Ok(())
}

#[test]
fn a_book_is_kept(rt: HostRuntime) -> Result<(), Fail> {
    let refused =
        b"N\x02P\x00\x03OR\x02\x00\x00\x00\x01R\x00\x00\x01\x00\x01C\x00\xff\xffW\x00R\x00\x00\x00\x80\x00B\x00B\x00";
    let text = printed(rt.alloc(), refused)?;
    assert_eq!(rt; text.as_str(), "! 6 10\n! 12 11\n! 24 13\n! 32 15\n");
    let held =
        b"N\x02FP\x00\x03OR\x00\x00\x01\x00\x00R\x01\x00\x00\x80\x00FC\x00\x00\x01FW\x01FTB\x01FT";
    let text = printed(rt.alloc(), held)?;
    assert_eq!(rt;
        text.as_str(),
        "! 2 22\nF 2147483648 0\nF 2147483648 1\nF 0 0\nT 0 0 0\nF 2147483648 0\nT 0 0 1\n"
    );
    Ok(())
}
