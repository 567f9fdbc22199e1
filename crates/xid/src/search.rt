// The search in the table, which is lent.
ghost use Rattle.std.specs.Prelude.{◌≡◌};
ghost use Rattle.xid.specs.Table.{table as rows};
ghost use Rattle.xid.specs.Xid.{class_of, xid_start, xid_continue};

// The class of the row that the code point lies in, 0 where it lies in none.
fn class_in(t: &[u32; 3234], c: u32) -> u32
    requires { t.now ≡ rows }
    ensures { result ≡ class_of rows c }
{
    let (rows, _) = t.as_chunks::<3>();
    let at = rows.partition_point(|row| row[1] < c);
    if at == rows.len() {
        return 0;
    }
    let [first, _, class] = rows[at];
    if first <= c { class } else { 0 }
}

// A name's first character, but for `_`.
pub fn is_xid_start(t: &[u32; 3234], c: u32) -> bool
    requires { t.now ≡ rows }
    ensures { result ≡ xid_start c }
{
    let k = class_in(t, c);
    k % 2 == 1
}

// A name's next characters.
pub fn is_xid_continue(t: &[u32; 3234], c: u32) -> bool
    requires { t.now ≡ rows }
    ensures { result ≡ xid_continue c }
{
    let k = class_in(t, c);
    k / 2 % 2 == 1
}
