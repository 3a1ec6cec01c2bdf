use theory::Record;

// A record with its number, which is its place in the table.
#[derive(Drop)]
pub struct Numbered<V> {
    pub number: u16,
    pub row: Record<V>,
}
