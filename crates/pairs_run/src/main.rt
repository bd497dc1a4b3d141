// Sorts 300 pairs, then once more as they are sorted, writes them, and looks some up. Then sorts and writes examples of other sizes and orders.
// Of examples of more than 1,000 pairs it writes a digest, and a few pairs.
#![tactic(auto)]

ghost use Rattle.std.specs.Prelude.{◌*◌, ◌<◌, ◌≤◌, length};

use pairs::SortedPairs;

const LARGEST: u64 = 0xffff_ffff_ffff_ffff;

// The greatest of the least first words of pairs that can be packed.
const LAST: u64 = 0xffff_ffff_8000_0000;

// Sizes of examples: ranges of more than 20 pairs are partitioned.
const SIZES: [u8; 9] = [0, 1, 2, 19, 20, 21, 22, 65, 200];

// The next of a run of numbers of 16 bits.
fn next(x: u16) -> u16 {
    ((x as u64 * 1109 + 12345) % 65536) as u16
}

// What a number of an example is made of: a random number, a pair's place, and how many places are left.
#[derive(Clone, Copy)]
struct At {
    random: u16,
    place: usize,
    left: usize,
}

// The numbers that examples are made of.
fn nothing(_at: At) -> u64 {
    0
}

fn random(at: At) -> u64 {
    at.random as u64
}

fn random_64th(at: At) -> u64 {
    at.random as u64 / 64
}

fn random_2048th(at: At) -> u64 {
    at.random as u64 / 2048
}

fn wide(at: At) -> u64 {
    at.random as u64 * 32767
}

fn below_100(at: At) -> u64 {
    at.random as u64 % 100
}

fn below_1000(at: At) -> u64 {
    at.random as u64 / 16 % 1000
}

fn below_4(at: At) -> u64 {
    at.random as u64 / 4096 % 4
}

fn below_2(at: At) -> u64 {
    at.random as u64 / 16 % 2
}

fn place(at: At) -> u64 {
    at.place as u64
}

fn left(at: At) -> u64 {
    at.left as u64
}

fn left_20th(at: At) -> u64 {
    at.left as u64 / 20
}

fn left_21st(at: At) -> u64 {
    at.left as u64 / 21
}

// Puts n pairs: base and a number as a first word, and tail and a number as a second word.
fn fill<F: Fn(At) -> u64, G: Fn(At) -> u64>(
    w: &mut [u64],
    n: usize,
    first: F,
    base: u64,
    second: G,
    tail: u64,
)
    requires n_in_bounds { 2 * n ≤ length w.old }
    requires first_callable { F.IsAlwaysCallable first }
    requires second_callable { G.IsAlwaysCallable second }
{
    let mut random = 1;
    for place in 0..n {
        random = next(random);
        let at = At {
            random,
            place,
            left: n - place,
        };
        let a = base.wrapping_add(first(at));
        let b = tail.wrapping_add(second(at));
        pairs::put_pair(w, place, a, b);
    }
}

// Writes a number and what follows it.
fn number(x: u64, after: &[u8]) {
    io::print_decimal(1, x);
    io::write_all(1, after);
}

// Writes the first n pairs, one to a line.
fn show(w: &[u64], n: usize)
    requires { 2 * n ≤ length w.now }
{
    for i in 0..n {
        line(w[2 * i], w[2 * i + 1]);
    }
}

// Writes a pair and the line's end.
fn line(a: u64, b: u64) {
    number(a, b" ");
    number(b, b"\n");
}

// Writes whether the pair of a and b is there, and how many pairs are below it.
fn look(pairs: &SortedPairs<'_>, a: u64, b: u64) {
    if pairs.has(a, b) {
        io::write_all(1, b"there ");
    } else {
        io::write_all(1, b"not there ");
    }
    number(pairs.lower_bound(a, b) as u64, b"\n");
}

// Looks up pairs that are there and pairs that are not.
fn look_all(pairs: &SortedPairs<'_>) {
    look(pairs, 0, 0);
    look(pairs, 7, 5);
    look(pairs, 7, 206);
    look(pairs, 100, 1);
    look(pairs, LARGEST - 1, LARGEST);
    look(pairs, LARGEST, 8);
    look(pairs, LARGEST, LARGEST);
}

// Sorts pairs of few values, for each size, and writes them: first words of so many kinds, made as `first` says, and second words below 4.
fn few<F: Fn(At) -> u64>(w: &mut [u64], sizes: &[u8], first: F, kinds: u64)
    requires room { 510 ≤ length w.old }
    requires first_callable { F.IsAlwaysCallable first }
{
    for size in sizes {
        let n = *size as usize;
        line(n as u64, kinds);
        fill(w, n, &first, 0, below_4, 0);
        sorting::sort_pairs(w, n);
        show(w, n);
    }
}

// Puts a pair for each byte: the byte, and its place.
fn fill_by(w: &mut [u64], bytes: &[u8])
    requires { 2 * length bytes.now ≤ length w.old }
{
    for (i, byte) in bytes.iter().enumerate() {
        pairs::put_pair(w, i, *byte as u64, i as u64);
    }
}

// Sorts and writes examples. The order of the last has medians that part it so badly that it is sorted by way of a heap.
fn examples(w: &mut [u64])
    requires { 510 ≤ length w.old }
{
    few(w, &SIZES, below_1000, 1000);
    few(w, &SIZES, below_2, 2);
    fill_by(w, b":;,<0=4>8?@ABCDEFGHIJK%'#LMNO62.*&(P$QRS7531/-+)");
    sorting::sort_pairs(w, 48);
    show(w, 48);
}

// A number that depends on each of the first n pairs and its place.
fn digest(w: &[u64], n: usize) -> u64
    requires { 2 * n ≤ length w.now }
{
    let mut h: u32 = 0;
    for i in 0..n {
        h = ((h as u64 * 257 + w[2 * i] % 65521 * 3 + w[2 * i + 1] % 65521) % 4294967291) as u32;
    }
    h as u64
}

// Sorts n pairs; writes n, the digest and the first two.
fn sort_many(w: &mut [u64], n: usize)
    requires { (2 * n ≤ length w.old) × (2 ≤ n) }
{
    sorting::sort_pairs(w, n);
    line(n as u64, digest(w, n));
    show(w, 2);
}

// Sorts n pairs, of which the pair of base and tail is one, and the pair of high and 0. The second words of the others fall from tail.
fn many<F: Fn(At) -> u64>(w: &mut [u64], n: usize, first: F, base: u64, tail: u64, high: u64)
    requires n_in_bounds { (2 * n ≤ length w.old) × (2 ≤ n) × (n ≤ tail) }
    requires first_callable { F.IsAlwaysCallable first }
{
    fill(w, n, first, base, left, tail - n as u64);
    pairs::put_pair(w, 1, base, tail);
    pairs::put_pair(w, n - 1, high, 0);
    sort_many(w, n);
}

// Sorts n pairs whose first words fall, and whose second words rise.
fn falling<F: Fn(At) -> u64>(w: &mut [u64], n: usize, first: F)
    requires n_in_bounds { (2 * n ≤ length w.old) × (2 ≤ n) }
    requires first_callable { F.IsAlwaysCallable first }
{
    fill(w, n, first, 0, place, 0);
    sort_many(w, n);
}

// Sorts pairs of each kind: random, some alike, many alike, of a wide range, and all alike.
fn kinds(w: &mut [u64])
    requires { 3000 ≤ length w.old }
{
    many(w, 1023, random, 0, 5000, 65536);
    many(w, 1024, random, 0, 5000, 65536);
    many(w, 1500, random_64th, 77, 5000, 2000);
    many(w, 1500, random_2048th, 77, 5000, 90);
    many(w, 1500, wide, 77, 5000, 77);
    many(w, 1500, nothing, 77, 5000, 77);
}

// Sorts pairs at the bounds of what can be packed, and past them.
fn bounds(w: &mut [u64])
    requires { 3000 ≤ length w.old }
{
    many(w, 1024, wide, 0, 0x1_ffff_ffff, 0x7fff_ffff);
    many(w, 1024, wide, 0, 0x1_ffff_ffff, 0x8000_0000);
    many(w, 1024, wide, 0, 0x2_0000_0000, 0x7fff_ffff);
    many(w, 1024, wide, LAST, 5000, LARGEST);
    many(w, 1024, random, LAST, LARGEST, LARGEST);
    many(w, 1024, random, 0xffff_ffff_7fff_ffff, 5000, LARGEST);
    many(w, 1024, random, 0, 5000, LARGEST);
}

// Sorts pairs whose least first word is the first that is not packed.
fn too_high(w: &mut [u64])
    requires { 3000 ≤ length w.old }
{
    many(w, 1024, wide, LAST, 5000, LARGEST);
    pairs::put_pair(w, 0, 0xffff_ffff_8000_0001, 3);
    pairs::put_pair(w, 1, LARGEST, 9);
    sort_many(w, 1024);
}

// Sorts examples of more than 1,000 pairs.
fn large(w: &mut [u64])
    requires { 3000 ≤ length w.old }
{
    kinds(w);
    falling(w, 1500, left);
    falling(w, 1500, left_20th);
    falling(w, 1500, left_21st);
    bounds(w);
    too_high(w);
}

fn main() {
    let mut words = [0u64; 3000];
    let w: &mut [u64] = &mut words;
    fill(w, 297, below_100, 0, place, 0);
    pairs::put_pair(w, 297, LARGEST, LARGEST);
    pairs::put_pair(w, 298, LARGEST, 7);
    pairs::put_pair(w, 299, LARGEST, LARGEST);
    sorting::sort_pairs(w, 300);
    sorting::sort_pairs(w, 300);
    show(w, 300);
    look_all(&SortedPairs {
        words: w,
        count: 300,
    });
    examples(w);
    large(w);
}
