// The incidence table of a small plane, points against lines.
use euclidean::EuclideanPlane;
use geometry::Geometry;
use incidence::lies_on;
use prime_field::PrimeField;

pub fn run(rt: &impl Print) -> anyhow::Result<()> {
    let plane = EuclideanPlane::new(PrimeField::try_from(3)?)?;
    println!(rt;
        "\nThe Euclidean plane of order 3: a row for each point, a column for each line, # where the point is on the line."
    )?;
    draw(rt, &plane)
}

fn draw<G: Geometry>(rt: &impl Print, plane: &G) -> anyhow::Result<()> {
    print!(rt; "          line")?;
    for line in 0..plane.lines() {
        print!(rt; " {line}")?;
    }
    println!(rt; "")?;
    for point in 0..plane.points() {
        print!(rt; "  point {point:>6}")?;
        for line in 0..plane.lines() {
            let mark = if lies_on(plane, point, line) {
                '#'
            } else {
                '.'
            };
            print!(rt; " {mark}")?;
        }
        println!(rt; "")?;
    }
    Ok(())
}
