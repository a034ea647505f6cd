// Frames at the limits of length, too long for a table.
use packet::Reader;
use refusal::Refusal;

// A frame of zeros of a length: whether it is read.
fn show_one(rt: &HostRuntime, len: usize) -> anyhow::Result<()> {
    let frame = vec![in rt.alloc(); 0u8; len]?;
    match Reader::open(1, frame.as_slice()) {
        Ok(_) => println!(rt; "{len} bytes: read")?,
        Err(fault) => {
            let Refusal { number, detail } = Refusal::from(fault);
            println!(rt; "{len} bytes: refused by {number}, detail {detail}")?;
        }
    }
    Ok(())
}

pub fn show(rt: &HostRuntime) -> anyhow::Result<()> {
    for len in [0, 13, 14, 9215, 9216, 9217, 65536] {
        show_one(rt, len)?;
    }
    Ok(())
}
