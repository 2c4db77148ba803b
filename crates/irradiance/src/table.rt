// Table 8 of ISO 52010-1: the Perez model's brightness coefficients, by clearness.
ghost use Rattle.std.specs.Prelude.{◌≡◌};
ghost use Rattle.irradiance.specs.Table.{table_row, coefficients_at};

// F11, F12, F13, F21, F22, F23.
const BRIGHTNESS_COEFFICIENTS: [[f64; 6]; 8] = [
    [-0.008, 0.588, -0.062, -0.06, 0.072, -0.022],
    [0.13, 0.683, -0.151, -0.019, 0.066, -0.029],
    [0.33, 0.487, -0.221, 0.055, -0.064, -0.026],
    [0.568, 0.187, -0.295, 0.109, -0.152, -0.014],
    [0.873, -0.392, -0.362, 0.226, -0.462, 0.001],
    [1.132, -1.237, -0.412, 0.288, -0.823, 0.056],
    [1.06, -1.6, -0.359, 0.264, -1.127, 0.131],
    [0.678, -0.327, -0.25, 0.156, -1.377, 0.251],
];

// Below these limits of clearness hold the rows 0 to 6.
const LIMITS: [f64; 7] = [1.065, 1.23, 1.5, 1.95, 2.8, 4.5, 6.2];

// The row at a clearness, 0 to 7: the first whose limit is above it, and the last for the rest, NaN among it.
pub fn table_row(clearness_parameter: f64) -> usize
    ensures { result ≡ table_row clearness_parameter }
{
    LIMITS
        .iter()
        .position(|limit| clearness_parameter < *limit)
        .unwrap_or(7)
}

// The six coefficients of the row at a clearness.
pub fn coefficients_at(clearness_parameter: f64) -> [f64; 6]
    ensures { result ≡ coefficients_at clearness_parameter }
{
    BRIGHTNESS_COEFFICIENTS[table_row(clearness_parameter)]
}
