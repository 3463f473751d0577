// The records of a CSV text.
ghost use Rattle.std.specs.Prelude.{IfOk, map};
ghost use Rattle.csv.specs.Reading.{default_config, strip_bom, AreRecords};
ghost use Rattle.csv.specs.Records.{fields_of};
ghost use Rattle.csv.specs.declared.parser.State.TheVariants as st;

use csv::{ByteRecord, Error, ReaderBuilder};
use std::alloc::Global;

/// All records of a text: fields parted by commas, perhaps in double quotes, and as many in a record as there are.
pub fn all_rows(alloc: Global, text: &[u8]) -> Result<Vec<ByteRecord>, Error>
    ensures { IfOk result
        (λ rows. AreRecords default_config st.StartRecord (strip_bom text.now) (map fields_of rows.items)) }
{
    let rdr = ReaderBuilder::new()
        .has_headers(false)
        .flexible(true)
        .from_reader(alloc, text);
    let mut rows = Vec::new(alloc);
    for row in rdr.into_byte_records() {
        if rows.push(row?).is_err() {
            return Err(Error::out_of_memory());
        }
    }
    Ok(rows)
}
