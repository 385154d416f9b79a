//! The table of fields, transcribed by hand, one line per field.

pub(super) static TABLE: &str = "\
Group metadata SFNode io NULL of D\n\
Group bboxCenter SFVec3f ini 0 0 0\n\
Group bboxSize SFVec3f ini -1 -1 -1\n\
Group children MFNode io [] of C\n\
Transform metadata SFNode io NULL of D\n\
Transform bboxCenter SFVec3f ini 0 0 0\n\
Transform bboxSize SFVec3f ini -1 -1 -1\n\
Transform center SFVec3f io 0 0 0\n\
Transform children MFNode io [] of C\n\
Transform rotation SFRotation io\n\
Transform scale SFVec3f io 1 1 1\n\
Transform scaleOrientation SFRotation io\n\
Transform translation SFVec3f io 0 0 0\n\
Switch metadata SFNode io NULL of D\n\
Switch bboxCenter SFVec3f ini 0 0 0\n\
Switch bboxSize SFVec3f ini -1 -1 -1\n\
Switch children MFNode io [] of C\n\
Switch whichChoice SFInt32 io -1\n\
WorldInfo metadata SFNode io NULL of D\n\
WorldInfo info MFString io []\n\
WorldInfo title SFString io \"\"\n\
Shape metadata SFNode io NULL of D\n\
Shape appearance SFNode io NULL of A\n\
Shape bboxCenter SFVec3f ini 0 0 0\n\
Shape bboxSize SFVec3f ini -1 -1 -1\n\
Shape geometry SFNode io NULL of G\n\
Appearance metadata SFNode io NULL of D\n\
Appearance material SFNode io NULL of M\n\
Appearance texture SFNode io NULL of T\n\
Material metadata SFNode io NULL of D\n\
Material ambientIntensity SFFloat io 0.2\n\
Material diffuseColor SFColor io 0.8 0.8 0.8\n\
Material emissiveColor SFColor io 0 0 0\n\
Material shininess SFFloat io 0.2\n\
Material specularColor SFColor io 0 0 0\n\
Material transparency SFFloat io 0\n\
ImageTexture metadata SFNode io NULL of D\n\
ImageTexture repeatS SFBool ini TRUE\n\
ImageTexture repeatT SFBool ini TRUE\n\
ImageTexture url MFString io []\n\
Box metadata SFNode io NULL of D\n\
Box size SFVec3f ini 2 2 2\n\
Box solid SFBool ini TRUE\n\
Sphere metadata SFNode io NULL of D\n\
Sphere radius SFFloat ini 1\n\
Sphere solid SFBool ini TRUE\n\
Cone metadata SFNode io NULL of D\n\
Cone bottom SFBool ini TRUE\n\
Cone bottomRadius SFFloat ini 1\n\
Cone height SFFloat ini 2\n\
Cone side SFBool ini TRUE\n\
Cone solid SFBool ini TRUE\n\
Cylinder metadata SFNode io NULL of D\n\
Cylinder bottom SFBool ini TRUE\n\
Cylinder height SFFloat ini 2\n\
Cylinder radius SFFloat ini 1\n\
Cylinder side SFBool ini TRUE\n\
Cylinder solid SFBool ini TRUE\n\
Cylinder top SFBool ini TRUE\n\
IndexedFaceSet metadata SFNode io NULL of D\n\
IndexedFaceSet color SFNode io NULL of L\n\
IndexedFaceSet coord SFNode io NULL of P\n\
IndexedFaceSet normal SFNode io NULL of V\n\
IndexedFaceSet texCoord SFNode io NULL of X\n\
IndexedFaceSet ccw SFBool ini TRUE\n\
IndexedFaceSet colorPerVertex SFBool ini TRUE\n\
IndexedFaceSet convex SFBool ini TRUE\n\
IndexedFaceSet normalPerVertex SFBool ini TRUE\n\
IndexedFaceSet solid SFBool ini TRUE\n\
IndexedFaceSet creaseAngle SFFloat ini 0\n\
IndexedFaceSet colorIndex MFInt32 ini []\n\
IndexedFaceSet coordIndex MFInt32 ini []\n\
IndexedFaceSet normalIndex MFInt32 ini []\n\
IndexedFaceSet texCoordIndex MFInt32 ini []\n\
Text metadata SFNode io NULL of D\n\
Text fontStyle SFNode io NULL of F\n\
Text length MFFloat io []\n\
Text maxExtent SFFloat io 0\n\
Text solid SFBool ini FALSE\n\
Text string MFString io []\n\
Coordinate metadata SFNode io NULL of D\n\
Coordinate point MFVec3f io []\n\
Color metadata SFNode io NULL of D\n\
Color color MFColor io []\n\
Normal metadata SFNode io NULL of D\n\
Normal vector MFVec3f io []\n\
TextureCoordinate metadata SFNode io NULL of D\n\
TextureCoordinate point MFVec2f io []\n\
FontStyle metadata SFNode io NULL of D\n\
FontStyle family MFString ini [\"SERIF\"]\n\
FontStyle horizontal SFBool ini TRUE\n\
FontStyle justify MFString ini [\"BEGIN\"]\n\
FontStyle language SFString ini \"\"\n\
FontStyle leftToRight SFBool ini TRUE\n\
FontStyle size SFFloat ini 1\n\
FontStyle spacing SFFloat ini 1\n\
FontStyle style SFString ini \"PLAIN\"\n\
FontStyle topToBottom SFBool ini TRUE\n\
Viewpoint metadata SFNode io NULL of D\n\
Viewpoint centerOfRotation SFVec3f io 0 0 0\n\
Viewpoint description SFString io \"\"\n\
Viewpoint fieldOfView SFFloat io 0.785398\n\
Viewpoint jump SFBool io TRUE\n\
Viewpoint orientation SFRotation io\n\
Viewpoint position SFVec3f io 0 0 10\n\
Viewpoint retainUserOffsets SFBool io FALSE\n\
NavigationInfo metadata SFNode io NULL of D\n\
NavigationInfo avatarSize MFFloat io [0.25 1.6 0.75]\n\
NavigationInfo headlight SFBool io TRUE\n\
NavigationInfo speed SFFloat io 1\n\
NavigationInfo type MFString io [\"EXAMINE\" \"ANY\"]\n\
NavigationInfo visibilityLimit SFFloat io 0\n\
Background metadata SFNode io NULL of D\n\
Background groundAngle MFFloat io []\n\
Background groundColor MFColor io []\n\
Background skyAngle MFFloat io []\n\
Background skyColor MFColor io [0 0 0]\n\
Background backUrl MFString io []\n\
Background bottomUrl MFString io []\n\
Background frontUrl MFString io []\n\
Background leftUrl MFString io []\n\
Background rightUrl MFString io []\n\
Background topUrl MFString io []\n\
Background transparency SFFloat io 0\n\
DirectionalLight metadata SFNode io NULL of D\n\
DirectionalLight ambientIntensity SFFloat io 0\n\
DirectionalLight color SFColor io 1 1 1\n\
DirectionalLight direction SFVec3f io 0 0 -1\n\
DirectionalLight global SFBool io FALSE\n\
DirectionalLight intensity SFFloat io 1\n\
DirectionalLight on SFBool io TRUE\n\
PointLight metadata SFNode io NULL of D\n\
PointLight ambientIntensity SFFloat io 0\n\
PointLight attenuation SFVec3f io 1 0 0\n\
PointLight color SFColor io 1 1 1\n\
PointLight global SFBool io TRUE\n\
PointLight intensity SFFloat io 1\n\
PointLight location SFVec3f io 0 0 0\n\
PointLight on SFBool io TRUE\n\
PointLight radius SFFloat io 100\n\
MetadataString metadata SFNode io NULL of D\n\
MetadataString name SFString io \"\"\n\
MetadataString reference SFString io \"\"\n\
MetadataString value MFString io []\n\
MetadataInteger metadata SFNode io NULL of D\n\
MetadataInteger name SFString io \"\"\n\
MetadataInteger reference SFString io \"\"\n\
MetadataInteger value MFInt32 io []\n\
MetadataFloat metadata SFNode io NULL of D\n\
MetadataFloat name SFString io \"\"\n\
MetadataFloat reference SFString io \"\"\n\
MetadataFloat value MFFloat io []\n\
MetadataSet metadata SFNode io NULL of D\n\
MetadataSet name SFString io \"\"\n\
MetadataSet reference SFString io \"\"\n\
MetadataSet value MFNode io [] of D\n\
TimeSensor metadata SFNode io NULL of D\n\
TimeSensor cycleInterval SFTime io 1\n\
TimeSensor enabled SFBool io TRUE\n\
TimeSensor loop SFBool io FALSE\n\
TimeSensor pauseTime SFTime io 0\n\
TimeSensor resumeTime SFTime io 0\n\
TimeSensor startTime SFTime io 0\n\
TimeSensor stopTime SFTime io 0\n\
TimeSensor isActive SFBool out\n\
TimeSensor isPaused SFBool out\n\
TimeSensor cycleTime SFTime out\n\
TimeSensor fraction_changed SFFloat out\n\
TimeSensor elapsedTime SFTime out\n\
TimeSensor time SFTime out\n\
TouchSensor metadata SFNode io NULL of D\n\
TouchSensor description SFString io \"\"\n\
TouchSensor enabled SFBool io TRUE\n\
TouchSensor isOver SFBool out\n\
TouchSensor hitPoint_changed SFVec3f out\n\
TouchSensor isActive SFBool out\n\
TouchSensor touchTime SFTime out\n\
PlaneSensor metadata SFNode io NULL of D\n\
PlaneSensor autoOffset SFBool io TRUE\n\
PlaneSensor description SFString io \"\"\n\
PlaneSensor enabled SFBool io TRUE\n\
PlaneSensor maxPosition SFVec2f io -1 -1\n\
PlaneSensor minPosition SFVec2f io 0 0\n\
PlaneSensor offset SFVec3f io 0 0 0\n\
PlaneSensor isOver SFBool out\n\
PlaneSensor isActive SFBool out\n\
PlaneSensor trackPoint_changed SFVec3f out\n\
PlaneSensor translation_changed SFVec3f out\n\
ScalarInterpolator metadata SFNode io NULL of D\n\
ScalarInterpolator key MFFloat io []\n\
ScalarInterpolator keyValue MFFloat io []\n\
ScalarInterpolator set_fraction SFFloat in\n\
ScalarInterpolator value_changed SFFloat out\n\
PositionInterpolator metadata SFNode io NULL of D\n\
PositionInterpolator key MFFloat io []\n\
PositionInterpolator keyValue MFVec3f io []\n\
PositionInterpolator set_fraction SFFloat in\n\
PositionInterpolator value_changed SFVec3f out\n\
PositionInterpolator2D metadata SFNode io NULL of D\n\
PositionInterpolator2D key MFFloat io []\n\
PositionInterpolator2D keyValue MFVec2f io []\n\
PositionInterpolator2D set_fraction SFFloat in\n\
PositionInterpolator2D value_changed SFVec2f out\n\
CoordinateInterpolator metadata SFNode io NULL of D\n\
CoordinateInterpolator key MFFloat io []\n\
CoordinateInterpolator keyValue MFVec3f io []\n\
CoordinateInterpolator set_fraction SFFloat in\n\
CoordinateInterpolator value_changed MFVec3f out\n\
BooleanSequencer metadata SFNode io NULL of D\n\
BooleanSequencer key MFFloat io []\n\
BooleanSequencer keyValue MFBool io []\n\
BooleanSequencer next SFBool in\n\
BooleanSequencer previous SFBool in\n\
BooleanSequencer set_fraction SFFloat in\n\
BooleanSequencer value_changed SFBool out\n\
IntegerSequencer metadata SFNode io NULL of D\n\
IntegerSequencer key MFFloat io []\n\
IntegerSequencer keyValue MFInt32 io []\n\
IntegerSequencer next SFBool in\n\
IntegerSequencer previous SFBool in\n\
IntegerSequencer set_fraction SFFloat in\n\
IntegerSequencer value_changed SFInt32 out\n\
BooleanFilter metadata SFNode io NULL of D\n\
BooleanFilter set_boolean SFBool in\n\
BooleanFilter inputTrue SFBool out\n\
BooleanFilter inputFalse SFBool out\n\
BooleanFilter inputNegate SFBool out\n\
BooleanToggle metadata SFNode io NULL of D\n\
BooleanToggle set_boolean SFBool in\n\
BooleanToggle toggle SFBool io FALSE\n\
BooleanTrigger metadata SFNode io NULL of D\n\
BooleanTrigger set_triggerTime SFTime in\n\
BooleanTrigger triggerTrue SFBool out\n\
IntegerTrigger metadata SFNode io NULL of D\n\
IntegerTrigger set_boolean SFBool in\n\
IntegerTrigger integerKey SFInt32 io -1\n\
IntegerTrigger triggerValue SFInt32 out\n\
TimeTrigger metadata SFNode io NULL of D\n\
TimeTrigger set_boolean SFBool in\n\
TimeTrigger triggerTime SFTime out\n\
Script metadata SFNode io NULL of D\n\
Script url MFString io []\n\
Script directOutput SFBool ini FALSE\n\
Script mustEvaluate SFBool ini FALSE\n\
";
