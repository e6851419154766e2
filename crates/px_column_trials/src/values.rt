//! Names and strings of bytes.

use px_column::{ByteString, Name, Px};
use px_trial_texts::is_text;
use std::alloc::Global;
use std::test::Fail;

fn copy_of_name(alloc: Global, text: &str) -> Px<Name> {
    let name = Name::new(alloc, text)?;
    name.try_clone(alloc)
}

fn are_bytes_kept(alloc: Global, bytes: &[u8]) -> Px<bool> {
    let string = ByteString::from_slice(alloc, bytes)?;
    let copy = string.try_clone(alloc)?;
    Ok(string.as_slice() == bytes && copy.as_slice() == bytes)
}

#[test]
fn names_and_bytes_are_copied(rt: HostRuntime) -> Result<(), Fail> {
    let alloc = rt.alloc();
    assert!(rt; is_text(Name::new(alloc, "ab"), "ab")?);
    assert!(rt; is_text(copy_of_name(alloc, "sixteen bytes in"), "sixteen bytes in")?);
    assert!(rt;
        is_text(
            copy_of_name(alloc, "seventeen bytes -"),
            "seventeen bytes -"
        )?
    );
    assert!(rt; are_bytes_kept(alloc, &[104, 105])?);
    assert!(rt; are_bytes_kept(alloc, b"seventeen bytes -")?);
    Ok(())
}
