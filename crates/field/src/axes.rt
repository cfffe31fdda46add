// From geocentric to geodetic axes. X' and Z' carry the crate's sign, which the minuses undo.
ghost use Rattle.std.specs.Prelude.{◌≡◌};
ghost use Rattle.field.specs.Turn.{turned};

use crate::Latitude;
use geocentric::Geocentric;
use synthesis::Xyz;

pub fn turn(v: Xyz, p: Geocentric, latitude: Latitude) -> Xyz
    ensures { result ≡ turned v p latitude.sin latitude.cos }
{
    let sin_dphi = p.cos_theta * latitude.cos - p.sin_theta * latitude.sin;
    let cos_dphi = p.sin_theta * latitude.cos + p.cos_theta * latitude.sin;
    Xyz {
        x: -v.x * cos_dphi + v.z * sin_dphi,
        y: v.y,
        z: -v.x * sin_dphi - v.z * cos_dphi,
    }
}
