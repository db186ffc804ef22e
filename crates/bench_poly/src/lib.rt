// The polynomial loops under plain names, for the benchmark to link and to time beside the same loops in Rust.
// Each passes its arguments on; what a loop requires, the benchmark's inputs meet.
#![tactic(auto)]

ghost use Rattle.std.specs.Prelude.{◌≡◌, ◌+◌, ◌-◌, ◌%◌, ◌<◌, ◌≤◌, length, get_or};
ghost use Rattle.algebra.specs.Polynomial.{Words, value, divided, product, reduced};
ghost use Rattle.algebra.specs.Points.{row_points, target, Through};
ghost use Rattle.field.specs.Field.{p};
ghost use Rattle.poly.specs.AddScaled.{scaled};
ghost use Rattle.poly.specs.Factor.{times_factor};
ghost use Rattle.poly.specs.Product.{padded};
ghost use Rattle.poly.specs.Division.{division};

#[unsafe(no_mangle)]
pub extern "C" fn bench_value_at(f: &[u32], s: u32) -> u32
    ensures { result ≡ value f.now s % p }
{
    poly::value_at(f, s)
}

#[unsafe(no_mangle)]
pub extern "C" fn bench_add_scaled(dst: &mut [u32], k: u32, src: &[u32])
    requires { length src.now ≤ length dst.old }
    ensures { dst.new ≡ scaled p k src.now dst.old }
{
    poly::add_scaled(dst, k, src);
}

#[unsafe(no_mangle)]
pub extern "C" fn bench_times_factor(f: &mut [u32], x: u32)
    ensures { f.new ≡ times_factor p x f.old }
{
    poly::times_factor(f, x);
}

#[unsafe(no_mangle)]
pub extern "C" fn bench_target(z: &mut [u32])
    requires { (0 < length z.old) × (length z.old < 4294967296) }
    ensures { z.new ≡ target p (row_points (length z.old - 1)) }
{
    poly::target(z);
}

// The top word of the product, which is made whole.
#[unsafe(no_mangle)]
pub extern "C" fn bench_product(f: &[u32], g: &[u32]) -> u32
    requires { (length f.now ≤ 257) × (length g.now ≤ 257) }
    ensures { result ≡ get_or (padded 513 (reduced p (product f.now g.now))) 512 0 }
{
    let room = poly::product(f, g);
    room[512]
}

#[unsafe(no_mangle)]
pub extern "C" fn bench_divide(room: &mut [u32], low: &[u32])
    requires { length low.now ≤ length room.old }
    ensures { room.new ≡ division p low.now (length room.old - length low.now) room.old }
{
    poly::divide(room, low);
}

#[unsafe(no_mangle)]
pub extern "C" fn bench_interpolate(v: &mut [u32])
    requires { (length v.old ≤ 256) × Words p v.old }
    ensures { Through p (row_points (length v.old)) (λ i. get_or v.old i 0) v.new }
{
    let inverses = field::table::inverses();
    poly::interpolation::interpolate(v, &inverses);
}

#[unsafe(no_mangle)]
pub extern "C" fn bench_add_divided(column: &mut [u32], k: u32, z: &[u32], x: u32)
    requires { length z.now ≡ length column.old + 1 }
    ensures { column.new ≡ scaled p k (divided x z.now) column.old }
{
    poly::add_divided(column, k, z, x);
}
