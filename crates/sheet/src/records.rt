// What the diagram layer takes out of a record: by functions, since `From` may stand only beside the types, in other crates.
ghost use Rattle.std.specs.Prelude.{◌≡◌};
ghost use Rattle.format.specs.Layout.{mask_of};
ghost use Rattle.sheet.specs.FileDiagram.{row_in, label_bytes};

use analysis::parties::Parties;
use diagram::rows::Row;
use format::reader::RECORD;

// Where an outcome has its destinations, and where its label bytes.
const GOALS: usize = 2;

const LABEL: usize = 10;

// A step's parties.
pub(crate) fn parties_in(rec: &[u8; RECORD]) -> Parties
    ensures { result.mask ≡ mask_of rec.now }
{
    let [_kind, _step, mask, ..] = *rec;
    Parties { mask }
}

// An outcome's row.
pub(crate) fn row_in(rec: &[u8; RECORD]) -> Row
    ensures { result ≡ row_in rec.now }
{
    let [_kind, step, ..] = *rec;
    Row {
        step,
        to: *rec[GOALS..].first_chunk().unwrap(),
    }
}

// An outcome's label bytes.
pub(crate) fn label_bytes(rec: &[u8; RECORD]) -> [u8; 32]
    ensures { result ≡ label_bytes rec.now }
{
    *rec[LABEL..].first_chunk().unwrap()
}
