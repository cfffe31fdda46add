// From geocentric to geodetic axes, with every minus of Field's turn read as plus.
ghost use Rattle.std.specs.Prelude.{◌≡◌};
ghost use Rattle.allowance.specs.Code.{turned_of};

use field::Latitude;
use geocentric::Geocentric;
use synthesis::Xyz;

pub fn turn(v: Xyz, p: Geocentric, latitude: Latitude) -> Xyz
    ensures { result ≡ turned_of v p latitude.sin latitude.cos }
{
    let c = float32::abs(p.cos_theta);
    let s = float32::abs(p.sin_theta);
    let cp = float32::abs(latitude.cos);
    let sp = float32::abs(latitude.sin);
    let sin_dphi = c * cp + s * sp;
    let cos_dphi = s * cp + c * sp;
    Xyz {
        x: v.x * cos_dphi + v.z * sin_dphi,
        y: v.y,
        z: v.x * sin_dphi + v.z * cos_dphi,
    }
}
