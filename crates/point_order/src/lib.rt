// The order in which a run of the first placer takes the boxes: by falling volume, equal volumes in listing order. What is
// sorted are the boxes' places in the listing. RULES: First placer: run

#![tactic(auto)]

ghost use Rattle.std.specs.Prelude.{◌≡◌, ◌≤◌, ◌<◌, length, get_or, take};
ghost use Rattle.std.specs.Float.{nan};
ghost use Rattle.point_order.specs.Order.{Falls};
ghost use Rattle.point_order.specs.Insert.{Places, spot_of, opened};
ghost use Rattle.point_order.specs.Begin.{NoneSmaller, begin_of};

// The first of the first n places whose box is of smaller volume than v, or n; before `from` there is none.
fn spot(volumes: &[f64], places: &[usize], from: usize, n: usize, v: f64) -> usize
    requires { Places places.now n (length volumes.now) × (from ≤ n)
        × NoneSmaller (λ t. get_or volumes.now t nan) v places.now from }
    ensures { result ≡ spot_of (λ t. get_or volumes.now t nan) v (take n places.now) }
{
    for i in from..n {
        let t = places[i];
        if volumes[t] < v {
            return i;
        }
    }
    n
}

// Where the search for the place of box t begins: behind the box before it, which stands at `last`, where that is not the smaller one; else at
// the front. Boxes of one kind follow each other, so most are put in without a search.
fn begin(volumes: &[f64], t: usize, last: usize) -> usize
    requires { (t < length volumes.now) × (last ≤ t) }
    ensures { result ≡ begin_of (λ u. get_or volumes.now u nan) t last }
{
    if t == 0 {
        return 0;
    }
    if volumes[t] <= volumes[t - 1] {
        return last + 1;
    }
    0
}

// Puts n at `at`, with the places from there up to n moved one on.
fn put_in(places: &mut [usize], at: usize, n: usize)
    requires { (at ≤ n) × (n < length places.old) }
    ensures { places.new ≡ opened places.old at n }
{
    places.copy_within(at..n, at + 1);
    places[at] = n;
}

// Stores the places of the first n boxes by falling volume, as many as have a volume and a cell. The cells past them stay.
pub fn falling(volumes: &[f64], n: usize, places: &mut [usize])
    ensures { Falls volumes.now n places.old places.new }
{
    let most = n.min(volumes.len().min(places.len()));
    let mut last = 0;
    for t in 0..most {
        let from = begin(volumes, t, last);
        last = spot(volumes, places, from, t, volumes[t]);
        put_in(places, last, t);
    }
}
