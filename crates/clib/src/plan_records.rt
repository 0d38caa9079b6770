// Plan records: read from bytes, and written to a lent buffer.
ghost use Rattle.std.specs.Prelude.{◌≡◌, ◌<◌, ◌^◌};
ghost use Rattle.refusal.specs.Answers.{tells_amount};
ghost use Rattle.records.specs.Records.{plan_of};
ghost use Rattle.records.specs.Promises.{WritesRecordBy};
ghost use Rattle.clib.specs.Bodies.{write_body_checks};
ghost use Rattle.clib.specs.Packed.{packs_used};
ghost use Rattle.clib.specs.Promises.{YkReadRecord, YkWriteRecord};

use crate::packing;
use refusal::Refusal;

// The bytes used, and the chip and the table above them.
fn of_used(used: Result<usize, Refusal>, chip: u8, table: u8) -> u64
    requires { (tells_amount used).1 < 2 ^ 16 }
    ensures { result ≡ packs_used used chip table }
{
    packing::of(used.map(|n| n as u64 + 256 * u64::from(chip) + 65536 * u64::from(table)))
}

// The caller has the body, from the fifth of the bytes used on.
#[unsafe(no_mangle)]
pub extern "C" fn yk_read_record(bytes: &[u8]) -> u64
    ensures { YkReadRecord bytes.now result }
{
    let found = records::read(bytes);
    let plan = found.plan;
    of_used(found.answer, plan.chip, plan.table)
}

fn write_body(chip: u8, table: u8, body: &[u8], out: &mut [u8]) -> Result<usize, Refusal>
    ensures { WritesRecordBy (write_body_checks chip table body.now out.old) (plan_of chip table body.now) out.old result out.new }
{
    let found = records::plan_from(chip, table, body);
    found.answer?;
    records::write(found.plan, out)
}

#[unsafe(no_mangle)]
pub extern "C" fn yk_write_record(chip: u8, table: u8, body: &[u8], out: &mut [u8]) -> u64
    ensures { YkWriteRecord chip table body.now out.old result out.new }
{
    let length = write_body(chip, table, body, out);
    packing::of_count(length)
}
