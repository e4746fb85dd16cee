use net_base::NoMemory;

/// Writes a piece, with a number for each `№` in it.
fn write_numbered(out: &mut String, piece: &str, number: u32) -> Result<(), NoMemory> {
    for (i, part) in piece.split('№').enumerate() {
        if i > 0 {
            write!(out, "{number}")?;
        }
        out.push_str(part)?;
    }
    Ok(())
}

/// Writes a piece so many times, numbered from 1 on.
fn write_times(out: &mut String, piece: &str, count: u32) -> Result<(), NoMemory> {
    for number in 0..count {
        write_numbered(out, piece, number + 1)?;
    }
    Ok(())
}

/// Writes a text in which `«COUNT:PIECE»` stands for the piece so many times.
pub fn write_repeated(out: &mut String, text: &str) -> Result<(), NoMemory> {
    for part in text.split('«') {
        let (times, behind) = part.split_once('»').unwrap_or(("", part));
        let (count, piece) = times.split_once(':').unwrap_or(("", ""));
        write_times(out, piece, count.parse::<u32>().unwrap_or(0))?;
        out.push_str(behind)?;
    }
    Ok(())
}
