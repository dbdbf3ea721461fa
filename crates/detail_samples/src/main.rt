#![tactic(auto)]

// Samples of the detail rule through the public call: a line for each, with the refusal's number (0 where accepted) and the
// height. A number beside an end of a range is the next f64 there, written with as many digits as tell it apart.
use rooms::{DistanceFactor, Wish};

// One line of output.
fn line(number: u32, height: u32) {
    io::write_all(1, b"detail ");
    io::print_decimal(1, u64::from(number));
    io::write_all(1, b" ");
    io::print_decimal(1, u64::from(height));
    io::write_all(1, b"\n");
}

// Asks, and shows the answer.
fn sample(depth: u32, wish: Wish) {
    match rooms::detail(depth, wish) {
        Ok(h) => line(0, h),
        Err(refusal) => line(refusal.number(), 0),
    }
}

// A widest edge.
fn edge(depth: u32, widest: f64) {
    sample(depth, Wish::WidestEdge(widest));
}

// A distance with its factor.
fn distant(depth: u32, distance: f64, factor: f64) {
    let pair = DistanceFactor { distance, factor };
    sample(depth, Wish::Distance(pair));
}

// The depth, 2 to 16, is tested before the wish.
fn depths(nan: f64, infinity: f64) {
    sample(0, Wish::EveryVoxel);
    sample(1, Wish::EveryVoxel);
    sample(2, Wish::EveryVoxel);
    sample(16, Wish::EveryVoxel);
    sample(17, Wish::EveryVoxel);
    sample(4294967295, Wish::EveryVoxel);
    edge(1, nan);
    edge(17, 0.5);
    distant(1, 10.0, 2.5);
    distant(17, infinity, 2.5);
    // the height is held to the depth
    edge(2, 1099511627776.0);
    edge(15, 1099511627776.0);
    edge(16, 1099511627776.0);
    distant(2, 10.0, 1.0);
    distant(16, 1099511627776.0, 1.0);
}

// A widest edge, 1 to 2^40.
fn edges(nan: f64, infinity: f64) {
    // S10
    edge(6, 8.0);
    edge(6, 7.5);
    edge(6, 0.5);
    // 1, 2, 2^16 and 2^40, each between its neighbours
    edge(16, 0.9999999999999999);
    edge(16, 1.0);
    edge(16, 1.0000000000000002);
    edge(16, 1.9999999999999998);
    edge(16, 2.0);
    edge(16, 2.0000000000000004);
    edge(16, 65535.99999999999);
    edge(16, 65536.0);
    edge(16, 65536.00000000001);
    edge(16, 1099511627775.9999);
    edge(16, 1099511627776.0);
    edge(16, 1099511627776.0002);
    // below 1: both zeros, the least and the greatest subnormal, the least normal number, negative numbers
    edge(6, 0.0);
    edge(6, -0.0);
    edge(6, 5e-324);
    edge(6, 2.225073858507201e-308);
    edge(6, 2.2250738585072014e-308);
    edge(6, -1.0);
    edge(6, -8.0);
    // the largest f64, the infinities, NaN
    edge(6, 1.7976931348623157e308);
    edge(6, infinity);
    edge(6, -infinity);
    edge(6, nan);
}

// A distance, 0 to 2^40, the factor being in range.
fn distances(nan: f64, infinity: f64) {
    // S11
    distant(6, 10.0, 2.5);
    distant(6, 10.0, 3.0);
    // both zeros count as 0, and no height passes
    distant(16, 0.0, 1.0);
    distant(16, -0.0, 1.0);
    distant(16, -0.0, 9.313225746154785e-10);
    // the least subnormal on either side of 0
    distant(16, 5e-324, 9.313225746154785e-10);
    distant(16, -5e-324, 9.313225746154785e-10);
    // 2^40 between its neighbours: 2^10 times 2^30
    distant(16, 1099511627775.9999, 1073741824.0);
    distant(16, 1099511627776.0, 1073741824.0);
    distant(16, 1099511627776.0002, 1073741824.0);
    distant(6, -1.0, 1.0);
    distant(6, 1.7976931348623157e308, 1.0);
    distant(6, infinity, 1.0);
    distant(6, -infinity, 1.0);
    distant(6, nan, 1.0);
}

// A factor, 2^-30 to 2^30, the distance being in range.
fn factors(nan: f64, infinity: f64) {
    // 2^-30 between its neighbours, at the distance 2^-14, which is 2^16 times it, and just below
    distant(16, 6.103515625e-5, 9.313225746154784e-10);
    distant(16, 6.103515625e-5, 9.313225746154785e-10);
    distant(16, 6.103515624999999e-5, 9.313225746154785e-10);
    distant(16, 6.103515625e-5, 9.313225746154787e-10);
    // 2^30 between its neighbours, at the distance 2^40
    distant(16, 1099511627776.0, 1073741823.9999999);
    distant(16, 1099511627776.0, 1073741824.0);
    distant(16, 1099511627776.0, 1073741824.0000002);
    // equal counts: 4 times the f64 nearest 0.3 is the f64 nearest 1.2
    distant(16, 1.2, 0.3);
    distant(16, 1.1999999999999997, 0.3);
    // not in the range
    distant(6, 10.0, 0.0);
    distant(6, 10.0, -0.0);
    distant(6, 10.0, 5e-324);
    distant(6, 10.0, 2.225073858507201e-308);
    distant(6, 10.0, -2.5);
    distant(6, 10.0, infinity);
    distant(6, 10.0, -infinity);
    distant(6, 10.0, nan);
    distant(6, nan, nan);
}

// Every sample, line by line.
fn main() {
    let nan = 0.0 / 0.0;
    let infinity = 1.0 / 0.0;
    depths(nan, infinity);
    edges(nan, infinity);
    distances(nan, infinity);
    factors(nan, infinity);
}
