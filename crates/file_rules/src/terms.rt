// The words of a parameter file's rows.
use return_source::ScenarioSet;

// What kind of row a line is.
#[derive(Clone, Copy)]
pub enum FieldType {
    Returns(ScenarioSet),
    FlatRate,
    Entitlement,
    Unread,
}
