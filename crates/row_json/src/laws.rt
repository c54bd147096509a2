//! The law of the JSON of rows. It has no code: it is proved for the definitions that contracts
//! cite.

ghost use Rattle.row_json.specs.RowLaws.{TellsTheRow};

/// The JSON of a row determines the row: if two rows that a history keeps have the same JSON, they
/// have the same actor, event, reply, number and time.
pub fn json_tells_the_row()
    ensures { TellsTheRow }
{}
