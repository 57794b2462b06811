/// The forms of a result text.
#[derive(Clone, Copy, PartialEq, Eq, Debug)]
pub enum Form {
    /// Tab-separated values: a line of names, and a line for each row (SPARQL 1.1 Query Results CSV and TSV Formats).
    Tsv,
    /// JSON (SPARQL 1.1 Query Results JSON Format).
    Json,
}

/// Why not all of a text was printed.
#[derive(Clone, Copy, PartialEq, Eq, Debug)]
pub enum WriteEnd {
    /// A call of the world failed.
    Failed,
    /// Memory ran out.
    Memory,
}
