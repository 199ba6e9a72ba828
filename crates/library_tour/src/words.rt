use arrangement::{NoMemory, Point};
use itoa::Buffer;

// A number behind a space.
fn put_number(out: &mut Vec<u8>, number: i128) -> Result<(), NoMemory> {
    let mut digits = Buffer::new();
    out.push(b' ')?;
    out.extend_from_slice(digits.format(number).as_bytes())?;
    Ok(())
}

/// A line of corners, each as a script has it: `X Y W` for (X/W, Y/W).
pub fn put_corners(out: &mut Vec<u8>, side: &str, corners: &[Point]) -> Result<(), NoMemory> {
    out.extend_from_slice(side.as_bytes())?;
    for (place, corner) in corners.iter().enumerate() {
        out.push(if place == 0 { b':' } else { b',' })?;
        put_number(out, corner.x())?;
        put_number(out, corner.y())?;
        put_number(out, corner.w())?;
    }
    out.push(b'\n')?;
    Ok(())
}
