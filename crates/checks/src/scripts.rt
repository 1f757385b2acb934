// Whole scripts, with the text that they print.
use crate::page::Page;
use script::interpreter::interpret;
use script::run::Run;
use std::alloc::Global;
use std::test::Fail;

// What a script prints where few places are lent.
fn printed(heap: Global, bytes: &[u8]) -> Result<String, Fail> {
    let mut page = Page {
        text: String::new(heap),
    };
    let mut run = Run::new();
    interpret(&mut run, bytes, &mut [0; 3], &mut [0; 5], &mut page)?;
    let Page { text } = page;
    Ok(text)
}

#[test]
fn nothing_prints_nothing(rt: HostRuntime) -> Result<(), Fail> {
    let text = printed(rt.alloc(), b"")?;
    assert_eq!(rt; text.as_str(), "");
    Ok(())
}

#[test]
fn a_cut_command_ends_the_run(rt: HostRuntime) -> Result<(), Fail> {
    let text = printed(rt.alloc(), b"N\x02OMP\x01")?;
    assert_eq!(rt; text.as_str(), "M 0\n! 4 21\n");
    Ok(())
}

#[test]
fn a_long_script_is_not_begun(rt: HostRuntime) -> Result<(), Fail> {
    let text = printed(rt.alloc(), &[b'M'; 4097])?;
    assert_eq!(rt; text.as_str(), "! 4096 23\n");
    Ok(())
}

#[test]
fn too_few_places(rt: HostRuntime) -> Result<(), Fail> {
    let text = printed(rt.alloc(), b"N\x04P\x00\x0fOMSTM")?;
    assert_eq!(rt; text.as_str(), "! 6 16\n! 7 16\nT 0 0 0 0 1\n! 9 16\n");
    Ok(())
}
