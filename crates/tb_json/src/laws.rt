//! What holds of the texts of tables.
ghost use Rattle.std.specs.Prelude.{◌≡◌, All, List};
ghost use Rattle.tb_chunk.specs.Promise.Col.{Col};
ghost use Rattle.tb_chunk.specs.Col.{IsColumn};
ghost use Rattle.tb_frame.specs.Promise.Table.{Table, table_of};
ghost use Rattle.tb_json.specs.Promise.Text.{text_of};
ghost use Rattle.tb_json.specs.Writable.{IsWritable};

/// Two tables with one text are equal, in their names, types and values. Nesting has no limit. Every table of columns
/// is such a table.
pub fn text_one_to_one()
    ensures one_to_one { (s t : Table) → IsWritable s → IsWritable t → text_of s ≡ text_of t
        → s ≡ t }
    ensures columns { (cs : List Col) → All IsColumn cs → IsWritable (table_of cs) }
{}
