//! A table of SQLite, in a file, that holds URIs in the order of their sort keys.
use anyhow::{Context, Result, ensure};
use iref::uri::{Uri, UriBuf};
use sqlite::types::ValueRef;
use sqlite::{Connection, Error, ErrorCode, FileStore, Row, Unknown, params};
use std::alloc::Global;
use std::fs::{self, File};
use std::io::{self, Read};

// How the file of a database begins.
const HEAD: &[u8] = b"SQLite format 3\0";

const CREATE: &str = "CREATE TABLE uri (key BLOB NOT NULL PRIMARY KEY, text TEXT NOT NULL)";

// How the table, or whatever else has its name, was made.
const MADE: &str = "SELECT sql FROM sqlite_schema WHERE name = 'uri' COLLATE NOCASE";

const PUT: &str = "INSERT OR REPLACE INTO uri (key, text) VALUES (?1, ?2)";

const BELOW: &str = "SELECT text FROM uri WHERE key >= ?1 AND key < ?2 ORDER BY key";

// What SQLite adds to a file's name for its log, and for the journal that only sqlite3 plays back.
const LOG: &str = "-wal";

const JOURNAL: &str = "-journal";

// A log that holds a page has a head of its own, one of the page, and at least 512 bytes of page.
const LEAST_LOG: u64 = 32 + 24 + 512;

// The path of what SQLite keeps beside a file, or beside the one that a link leads to.
fn beside(rt: &HostRuntime, path: &str, suffix: &str) -> io::Result<String> {
    let file = fs::canonicalize(rt, path)?;
    Ok(format!(in rt.alloc(); "{}{suffix}", file.as_str())?)
}

// Whether it stands there. Nothing is kept beside a file that is not there.
fn stands_beside(rt: &HostRuntime, path: &str, suffix: &str) -> io::Result<bool> {
    if !fs::exists(rt, path)? {
        return Ok(false);
    }
    let other = beside(rt, path, suffix)?;
    fs::exists(rt, other.as_str())
}

// Whether a file that begins with these bytes may be a database. In a new file the first byte is 0 until
// the rest of the first page is written, and the log is there before it. After a kill at that time SQLite
// finds in the log that the file is half made, and refuses any other file.
fn may_be_database(front: &[u8], has_log: bool) -> bool {
    match front {
        [] => true,
        [0, ..] => has_log,
        _ => front == HEAD,
    }
}

// Refuses what is no file, as a pipe, which would wait for a writer, and a file that cannot be a database.
fn test_front(rt: &HostRuntime, path: &str, has_log: bool) -> Result<()> {
    if !fs::exists(rt, path).context(format_args!("cannot open {path}"))? {
        return Ok(());
    }
    let about = fs::metadata(rt, path).context(format_args!("cannot open {path}"))?;
    ensure!(about.is_file(), "{path} is no file");
    let mut front = Vec::new(rt.alloc());
    File::open(rt, path)
        .context(format_args!("cannot open {path}"))?
        .take(16)
        .read_to_end(&mut front)
        .context(format_args!("cannot read {path}"))?;
    let is_accepted = may_be_database(front.as_slice(), has_log);
    ensure!(is_accepted, "{path} is no database");
    Ok(())
}

// Removes the log that SQLite has left beside a file, unless it holds a page. Whoever calls this has the
// file open, so that it is locked, and the log is no one else's.
fn remove_log(rt: &HostRuntime, path: &str) -> io::Result<()> {
    let log = beside(rt, path, LOG)?;
    if fs::metadata(rt, log.as_str())?.len() < LEAST_LOG {
        fs::remove_file(rt, log.as_str())?;
    }
    Ok(())
}

// Whether the file holds no database, or a damaged one.
fn is_refusal(error: &Error) -> bool {
    matches!(
        error,
        Error::SqliteFailure(ErrorCode::NotADatabase | ErrorCode::DatabaseCorrupt)
    )
}

// What to do about a file that is not opened because of the journal beside it.
fn advice(rt: &HostRuntime, path: &str, error: &Error) -> &'static str {
    let is_unopened = matches!(error, Error::SqliteFailure(ErrorCode::CannotOpen));
    if is_unopened && stands_beside(rt, path, JOURNAL).unwrap_or(false) {
        return ", which has a rollback journal: open it with sqlite3 first";
    }
    ""
}

/// The table of a file.
#[derive(Drop)]
pub struct Table {
    conn: Connection<FileStore<sqlite::File>>,
}

impl Table {
    /// Opens a file, which is made where there is none, and completed where a run was killed as it made
    /// it. The error names a file that cannot be opened, or that is no database; nothing is written then.
    pub fn open(rt: &HostRuntime, path: &str) -> Result<Table> {
        let has_log = stands_beside(rt, path, LOG).context(format_args!("cannot open {path}"))?;
        test_front(rt, path, has_log)?;
        match Connection::open_from(rt, path, false, Unknown) {
            Ok(conn) => Ok(Table { conn }),
            Err((error, left)) => {
                // What is left is the open file.
                if left.is_some() && is_refusal(&error) && !has_log {
                    let _ = remove_log(rt, path);
                }
                let advice = advice(rt, path, &error);
                Err(error).context(format_args!("cannot open {path}{advice}"))
            }
        }
    }

    // Runs a statement that is no query.
    fn execute(&mut self, sql: &str, values: &[ValueRef<'_>]) -> Result<()> {
        self.conn.execute(sql, values)?;
        Ok(())
    }

    // The rows that a query finds.
    fn rows(&mut self, sql: &str, values: &[ValueRef<'_>]) -> Result<Vec<Row>> {
        Ok(self.conn.query_all(sql, values)?)
    }

    // Makes the table where there is none.
    fn make(&mut self) -> Result<()> {
        let rows = self.rows(MADE, &[])?;
        let Some(row) = rows.first() else {
            return self.execute(CREATE, &[]);
        };
        let made: String = row.get(0)?;
        ensure!(made.as_str() == CREATE, "uri is another table");
        Ok(())
    }

    fn put(&mut self, alloc: Global, uri: Uri<'_>) -> Result<()> {
        let key = uri.sort_key(alloc)?;
        self.execute(PUT, params![key.as_bytes(), uri.as_str()])
    }

    /// Puts all URIs or none, each under its sort key, in place of one that is equal to it.
    pub fn put_all(&mut self, alloc: Global, uris: &[UriBuf]) -> Result<()> {
        self.execute("BEGIN", &[])?;
        self.make()?;
        for uri in uris {
            self.put(alloc, uri.as_uri())?;
        }
        self.execute("COMMIT", &[])
    }

    /// The texts of the URIs that are below this one, in their order: one range of the keys.
    pub fn below(&mut self, alloc: Global, uri: Uri<'_>) -> Result<Vec<String>> {
        let range = uri.sort_range(alloc)?;
        let ends = params![range.start.as_bytes(), range.end.as_bytes()];
        let rows = self.rows(BELOW, ends)?;
        let mut texts = Vec::new(alloc);
        for row in &rows {
            texts.push(row.get(0)?)?;
        }
        Ok(texts)
    }

    /// Writes all that was put to the file, and closes it. If `put_all` failed, nothing was put.
    pub fn close(self, rt: &HostRuntime, path: &str) -> Result<()> {
        let Table { conn } = self;
        match conn.close_files() {
            Ok(_files) => Ok(remove_log(rt, path)?),
            Err((error, _store)) => Err(error.into()),
        }
    }
}
