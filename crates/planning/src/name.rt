// Names that are spelled in buffers: the name of a run, and the keys of groups, which are compared byte by byte.
ghost use Rattle.std.specs.Prelude.{◌≡◌, ◌≤◌, length};
ghost use Rattle.fields.specs.Text.{earlier};
ghost use Rattle.fields.specs.Writing.{answered};
ghost use Rattle.planning.specs.Choosing.{run_name, key_in};

use fields::decimal::{decimal_length, put_decimal};
use fields::text::lower_case;
use fields::write::put_bytes;

/// Room for a run's name: an array's name, and an index and a count in brackets.
pub(crate) const RUN_NAME: usize = 160;

// Room for a key: a name, a brace and a number.
const KEY: usize = 280;

/// The name of a run, from the front of a buffer on; how many bytes it has.
pub(crate) fn run_name(array: &[u8], start: u32, span: u32, out: &mut [u8; RUN_NAME]) -> usize
    requires { length array.now ≤ 136 }
    ensures count { result ≡ length (run_name array.now start span) }
    ensures within { result ≤ 160 }
    ensures bytes { out.new ≡ answered (run_name array.now start span) out.old }
{
    let first = u64::from(start);
    let count = u64::from(span);
    let n = array.len();
    put_bytes(out, 0, array);
    put_bytes(out, n, b"[");
    put_decimal(out, n + 1, first);
    let a = n + 1 + decimal_length(first);
    put_bytes(out, a, b"]{");
    put_decimal(out, a + 2, count);
    let b = a + 2 + decimal_length(count);
    put_bytes(out, b, b"}");
    b + 1
}

// The key of a group, by its name and a run's cluster, from the front of a buffer on; how many bytes it has.
// Keys are put into buffers and compared there, since nothing here may allocate; std compares them.
fn put_key(name: &[u8], cluster: Option<u16>, out: &mut [u8; KEY]) -> usize
    requires { length name.now ≤ 255 }
    ensures count { result ≡ length (key_in name.now cluster) }
    ensures within { result ≤ 280 }
    ensures bytes { out.new ≡ answered (key_in name.now cluster) out.old }
{
    let n = name.len();
    // By index: of bytes that `iter_mut` lends, a proof knows how many come back and no more.
    for i in 0..n {
        out[i] = lower_case(name[i]);
    }
    let Some(c) = cluster else { return n };
    let c = u64::from(c);
    put_bytes(out, n, b"{");
    put_decimal(out, n + 1, c);
    n + 1 + decimal_length(c)
}

/// Whether the key of a group stands before that of another by byte order.
#[tactic(auto, using(fields::proofs::Comparisons::compared, crate::proofs::Keys::keys_compared))]
pub(crate) fn key_before(a: &[u8], m: Option<u16>, b: &[u8], n: Option<u16>) -> bool
    requires first { length a.now ≤ 255 }
    requires second { length b.now ≤ 255 }
    ensures { result ≡ earlier (key_in a.now m) (key_in b.now n) }
{
    let mut x = [0; KEY];
    let mut y = [0; KEY];
    let p = put_key(a, m, &mut x);
    let q = put_key(b, n, &mut y);
    x[..p] < y[..q]
}
