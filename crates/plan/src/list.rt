// A plan as lines of text on standard output, read off the planned sheet.
use file_read::records;
use sheet::Line;
use show::Bits;
use std::io;

// id, instance, orientation, X, Y, Z
fn write_line(rt: &impl Print, line: Line) -> io::Result<()> {
    let [x, y, z] = line.at.map(|at| Bits(floats::bits_of(at)));
    println!(rt;
        "{} {} {} {x} {y} {z}",
        line.id, line.instance, line.orientation
    )
}

// The plan that a planned sheet holds, with the number of boxes considered and the utilization's bits.
pub(crate) fn write_plan(
    rt: &impl Print,
    sheet: &[u8],
    considered: u64,
    utilization: u64,
) -> io::Result<()> {
    let Some(sections) = records::sections_of(sheet) else {
        return Ok(());
    };
    let many = sections.many;
    println!(rt; "placed {} considered {considered}", many.lines)?;
    for i in 0..many.lines {
        write_line(rt, records::line_in(sheet, sections.start, i))?;
    }
    print!(rt; "utilization {}\nunplaced", Bits(utilization))?;
    for i in 0..many.unplaced {
        print!(rt; " {}", records::unplaced_in(sheet, sections.end, i))?;
    }
    rt.println("")
}
