use pana_text::{read, write};
use std::test::Fail;

#[test]
fn reads_and_writes(rt: HostRuntime) -> Result<(), Fail> {
    let alloc = rt.alloc();
    for text in [
        "(0,0)",
        "(1,0)",
        "(1,18446744073709551615)",
        "((1,0),(0,1,0))",
        "((0,(1,0)),(10,0,(2,305,0)))",
    ] {
        let stamp = read(alloc, text)?;
        assert_eq!(rt; write(alloc, &stamp)?.as_str(), text);
    }
    Ok(())
}
