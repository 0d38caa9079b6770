// Prints plan records read, `read BYTES used N PLAN`, and written to a buffer that was filled with 5Ah, `write PLAN room N used N out BYTES`.
#![tactic(auto)]

use curves::{Plan, SlopeValues, StepValues};
use figures_printing::{Bytes, FILL, counted};
use std::io::{self, Stdout};

fn read(out: Stdout, bytes: &[u8]) -> io::Result<Plan> {
    let found = records::read(bytes);
    print!(out; "read{}", Bytes(bytes))?;
    counted(out, " used ", found.answer)?;
    figures_samples::show(out, found.plan)?;
    println!(out)?;
    Ok(found.plan)
}

// One record after the other.
fn reads(out: Stdout, records: &[&[u8]]) -> io::Result<()> {
    for bytes in records {
        read(out, bytes)?;
    }
    Ok(())
}

fn write(out: Stdout, plan: Plan, room: usize) -> io::Result<()> {
    let mut buffer = [FILL; 22];
    print!(out; "write")?;
    figures_samples::show(out, plan)?;
    print!(out; " room {room}")?;
    if let Some(part) = buffer.get_mut(..room) {
        counted(out, " used ", records::write(plan, part))?;
    }
    println!(out; " out{}", Bytes(&buffer))
}

// With all bytes there, with a tail, and written back; temperatures from -128 to 127 are in order. The request's two records of chip 4, whose critical
// comes first. The request's record of chip 5, one with the least and the greatest that its registers hold, and one with other bytes.
fn good(out: Stdout) -> io::Result<()> {
    let records: [(&[u8], usize); 10] = [
        (b"CP\x01\x03\x1E\x28\x32\x37\x3C\x8C\xAA\xC8\xE6", 13),
        (
            b"CP\x01\x01\x80\xFF\x00\x7F\x7F\x00\x00\xFF\xFF\x01\x02",
            20,
        ),
        (
            b"CP\x02\x01\x3C\x32\x28\x1E\x01\x02\x03\x04\x05\x06\x07\x08\x09\x0A",
            18,
        ),
        (
            b"CP\x02\x02\xFF\x80\x7F\x00\x00\x00\x00\x00\x00\x01\xFF\xFF\xFF\xFFCP",
            20,
        ),
        (b"CP\x04\x01\x5A\x19\x23\x2D\x37\x8C\xAA\xC8\xE6", 13),
        (b"CP\x04\x0A\x7F\xEC\x00\x14\x32\x00\x40\x80\xFF", 13),
        (
            b"CP\x04\x05\x7F\x80\xFF\x00\x7F\x00\x00\xFF\xFF\x01\x02",
            20,
        ),
        (
            b"CQ\x05\x01\x07\x1E\x23\x28\x2D\x32\x37\x3C\x50\x08\x0C\x10\x18\x20\x30\x38",
            20,
        ),
        (
            b"CQ\x05\x06\x07\x00\x01\x02\x03\x04\x7E\x7F\x7F\x00\x00\x00\x3F\x3F\x3F\x3FCQ",
            22,
        ),
        (
            b"CQ\x05\x03\x07\x14\x21\x29\x2F\x36\x3B\x42\x4B\x05\x09\x12\x1B\x24\x2D\x3E",
            20,
        ),
    ];
    for (bytes, room) in records {
        write(out, read(out, bytes)?, room)?;
    }
    Ok(())
}

// 1, and 1 before 2.
fn header_cut_short(out: Stdout) -> io::Result<()> {
    reads(out, &[b"", b"CP\x01", b"XYZ", b"CQ\x05"])
}

// 2, and 2 before 3.
fn wrong_mark(out: Stdout) -> io::Result<()> {
    reads(
        out,
        &[
            b"DP\x01\x03\x1E\x28\x32\x37\x3C\x8C\xAA\xC8\xE6",
            b"CR\x01\x03\x1E\x28\x32\x37\x3C\x8C\xAA\xC8\xE6",
            b"PC\x06\x03\x1E\x28\x32\x37\x3C\x8C\xAA\xC8\xE6",
            b"CR\x05\x01",
            b"BP\x05\x01\x07\x1E\x23\x28\x2D\x32\x37\x3C\x50\x08\x0C\x10\x18\x20\x30\x38",
            b"QC\x05\x01\x07\x1E\x23\x28\x2D\x32\x37\x3C\x50\x08\x0C\x10\x18\x20\x30\x38",
        ],
    )
}

// 3, and 3 before 4 and 16.
fn no_such_chip(out: Stdout) -> io::Result<()> {
    reads(
        out,
        &[
            b"CP\x00\x03\x1E\x28\x32\x37\x3C\x8C\xAA\xC8\xE6",
            b"CP\x06\x01\x5A\x19\x23\x2D\x37\x8C\xAA\xC8\xE6",
            b"CP\xFF\x0B",
            b"CQ\x06\x01",
            b"CQ\x00\x01\x07\x1E\x23\x28\x2D\x32\x37\x3C\x50\x08\x0C\x10\x18\x20\x30\x38",
        ],
    )
}

// 4, and 4 before 16 and 5.
fn no_such_table(out: Stdout) -> io::Result<()> {
    reads(
        out,
        &[
            b"CP\x01\x00\x1E\x28\x32\x37\x3C\x8C\xAA\xC8\xE6",
            b"CP\x01\x04\x1E\x28\x32\x37\x3C\x8C\xAA\xC8\xE6",
            b"CP\x02\x03\x3C\x32\x28\x1E\x01\x02\x03\x04\x05\x06\x07\x08\x09\x0A",
            b"CP\x03\x01\x1E\x28\x32\x37\x3C\x8C\xAA\xC8\xE6",
            b"CP\x01\x04\x1E\x28\x32\x37\x3C\x8C\xAA\xC8",
            b"CP\x03\x01",
            b"CP\x04\x00\x5A\x19\x23\x2D\x37\x8C\xAA\xC8\xE6",
            b"CP\x04\x0B\x5A\x19\x23\x2D\x37\x8C\xAA\xC8\xE6",
            b"CP\x04\xFF",
            b"CQ\x03\x01",
            b"CQ\x05\x07",
            b"CP\x05\x07",
            b"CQ\x05\x00\x07\x1E\x23\x28\x2D\x32\x37\x3C\x50\x08\x0C\x10\x18\x20\x30\x38",
            b"CQ\x05\x07\x08",
            b"CQ\x01\x04\x1E\x28\x32\x37\x3C\x8C\xAA\xC8\xE6",
        ],
    )
}

// 16: a mark that doesn't go with the chip, and then a point count that doesn't; 16 before 5 and 6.
fn form_not_of_chip(out: Stdout) -> io::Result<()> {
    reads(
        out,
        &[
            b"CP\x05\x01",
            b"CQ\x01\x01",
            b"CQ\x02\x01",
            b"CQ\x04\x01",
            b"CQ\x05\x01\x06",
            b"CQ\x05\x01\x08",
            b"CP\x05\x01\x07\x1E\x23\x28\x2D\x32\x37\x3C\x50\x08\x0C\x10\x18\x20\x30\x38",
            b"CQ\x01\x03\x1E\x28\x32\x37\x3C\x8C\xAA\xC8\xE6",
            b"CQ\x01\x03\x07\x1E\x23\x28\x2D\x32\x37\x3C\x50\x08\x0C\x10\x18\x20\x30\x38",
            b"CQ\x02\x01\x3C\x32\x28\x1E\x01\x02\x03\x04\x05\x06\x07\x08\x09\x0A",
            b"CQ\x04\x0A\x7F\xEC\x00\x14\x32\x00\x40\x80\xFF",
            b"CQ\x05\x06\x00\x1E\x23\x28\x2D\x32\x37\x3C\x50\x08\x0C\x10\x18\x20\x30\x38",
            b"CQ\x05\x02\x04\x1E\x28\x32\x37\x3C\x8C\xAA\xC8\xE6",
            b"CQ\x05\x03\xFF",
            b"CQ\x05\x04\x06\x23\x23\x23\x23\x23\x23\x23\x23\x23\x23\x23\x23\x23",
        ],
    )
}

// 5, of chip 5 also where the point count is missing; and 5 before 6.
fn body_cut_short(out: Stdout) -> io::Result<()> {
    reads(
        out,
        &[
            b"CP\x01\x03",
            b"CP\x01\x03\x1E\x28\x32\x37\x3C\x8C\xAA\xC8",
            b"CP\x02\x01\x3C\x32\x28\x1E\x01\x02\x03\x04\x05\x06\x07\x08\x09",
            b"CP\x01\x03\x28\x1E\x32\x37\x3C\x8C\xAA\xC8",
            b"CP\x04\x01",
            b"CP\x04\x01\x5A\x19\x23\x2D\x37\x8C\xAA\xC8",
            b"CP\x04\x0A\x5A\x23\x19\x2D\x37\x8C\xAA\xC8",
            b"CQ\x05\x01",
            b"CQ\x05\x01\x07",
            b"CQ\x05\x01\x07\x1E\x23\x28\x2D\x32\x37\x3C\x50\x08\x0C\x10\x18\x20\x30",
            b"CQ\x05\x06\x07\x23\x1E\x28\x2D\x32\x37\x3C\x50\x08\x0C\x10\x18\x20\x30",
        ],
    )
}

// 6, and 6 before 7. In chip 1's order a body is none of chip 4's. Chip 5's registers have seven bits.
fn temperatures_out_of_order(out: Stdout) -> io::Result<()> {
    reads(
        out,
        &[
            b"CP\x01\x03\x1E\x28\x28\x37\x3C\x8C\xAA\xC8\xE6",
            b"CP\x01\x03\x1E\x28\x32\x37\x36\x8C\xAA\xC8\xE6",
            b"CP\x01\x03\x1E\x28\x32\x80\x3C\x8C\xAA\xC8\xE6",
            b"CP\x02\x01\x3C\x32\x32\x1E\x01\x02\x03\x04\x05\x06\x07\x08\x09\x0A",
            b"CP\x01\x03\x28\x1E\x32\x37\x3C\x8C\xAA\xC8\xC7",
            b"CP\x04\x01\x1E\x28\x32\x37\x3C\x8C\xAA\xC8\xE6",
            b"CP\x04\x01\x5A\x19\x23\x2D\x23\x8C\xAA\xC8\xE6",
            b"CP\x04\x02\x36\x19\x23\x2D\x37\x8C\xAA\xC8\xE6",
            b"CP\x04\x09\xFF\x19\x23\x2D\x37\x8C\xAA\xC8\xC7",
            b"CQ\x05\x01\x07\x1E\x23\x28\x2D\x32\x37\x37\x50\x08\x0C\x10\x18\x20\x30\x38",
            b"CQ\x05\x01\x07\x1E\x23\x28\x2D\x32\x37\x3C\x3B\x08\x0C\x10\x18\x20\x30\x38",
            b"CQ\x05\x02\x07\x80\x23\x28\x2D\x32\x37\x3C\x50\x08\x0C\x10\x18\x20\x30\x38",
            b"CQ\x05\x03\x07\x9E\x23\x28\x2D\x32\x37\x3C\x50\x08\x0C\x10\x18\x20\x30\x38",
            b"CQ\x05\x04\x07\x1E\x23\x28\x2D\x32\x37\x3C\x80\x08\x0C\x10\x18\x20\x30\x38",
            b"CQ\x05\x05\x07\x1E\x23\x28\x2D\x32\x37\x3C\xD0\x08\x0C\x10\x18\x20\x30\x40",
        ],
    )
}

// 7. Chip 5's registers have six bits.
fn speeds_out_of_order(out: Stdout) -> io::Result<()> {
    reads(
        out,
        &[
            b"CP\x01\x03\x1E\x28\x32\x37\x3C\x8C\xAA\xC8\xC7",
            b"CP\x02\x01\x3C\x32\x28\x1E\x01\x02\x03\x04\x02\xFF\x07\x08\x09\x0A",
            b"CP\x04\x0A\x5A\x19\x23\x2D\x37\x8C\xAA\xC8\xC7",
            b"CQ\x05\x01\x07\x1E\x23\x28\x2D\x32\x37\x3C\x50\x08\x0C\x10\x18\x20\x30\x2F",
            b"CQ\x05\x06\x07\x1E\x23\x28\x2D\x32\x37\x3C\x50\x08\x0C\x10\x18\x20\x30\x40",
            b"CQ\x05\x06\x07\x1E\x23\x28\x2D\x32\x37\x3C\x50\x88\x0C\x10\x18\x20\x30\x38",
        ],
    )
}

// Into no room and into plenty: 7 is before 9.
fn refused_plans(out: Stdout) -> io::Result<()> {
    for k in 0..33 {
        let plan = figures_samples::refused(k);
        write(out, plan, 0)?;
        write(out, plan, 22)?;
    }
    Ok(())
}

// 9 where a byte is missing; a tail is kept.
fn rooms(out: Stdout) -> io::Result<()> {
    for (plan, rooms) in [
        (figures_samples::paper(1, 3), [12, 13, 14]),
        (figures_samples::stepped(), [17, 18, 20]),
        (figures_samples::banked(10), [12, 13, 14]),
        (figures_samples::counted(6, 7), [19, 20, 22]),
    ] {
        for room in rooms {
            write(out, plan, room)?;
        }
    }
    Ok(())
}

// With values for both kinds of curve, eight points, and the point count of chip 5: what is not the chip's is neither checked nor written.
fn both(chip: u8) -> Plan {
    Plan {
        chip,
        table: 2,
        points: 7,
        slope: SlopeValues {
            temperatures: [1, 2, 3, 4, 5, 6, 7, 0],
            critical: 8,
            duties: [5, 6, 7, 7, 8, 9, 9, 1],
        },
        steps: StepValues {
            bounds: [9, 8, 7, 6],
            counts: [1, 2, 3, 3, 0xFFFF],
        },
    }
}

fn main(rt: HostRuntime) -> io::Result<()> {
    let out = rt.stdout();
    good(out)?;
    header_cut_short(out)?;
    wrong_mark(out)?;
    no_such_chip(out)?;
    no_such_table(out)?;
    form_not_of_chip(out)?;
    body_cut_short(out)?;
    temperatures_out_of_order(out)?;
    speeds_out_of_order(out)?;
    refused_plans(out)?;
    rooms(out)?;
    for chip in [1, 2, 4, 5] {
        write(out, both(chip), 22)?;
    }
    Ok(())
}
